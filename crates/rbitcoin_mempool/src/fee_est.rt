// Flow-aware fee projection, after fee_est.rs.
mod capacity;
mod decade;
mod depths;
mod edges;
mod hold;
mod marked;
mod percentile;
mod publish;
mod target;

pub use capacity::{
    BLOCK_WEIGHT_WU, CONFIDENCE_FAR, CONFIDENCE_NEAR, INFLOW_HORIZON_CAP_SECS, LAMBDA_AT_NEAR,
    SECONDS_PER_BLOCK, capacity_wu, effective_capacity_wu, horizon_secs, inclusion_confidence,
    inflow_horizon_secs, inflow_suffix_wu, min_rate_for_capacity,
};
pub use depths::{
    BLEND_N0, NEAR_BLEND_FLOOR, blend_sat_kvb, blend_weight, depth_rate_sat_kvb, flow_for_depth,
    published_depth_rate, warmup_blend,
};
pub use edges::{
    FEE_BUCKET_EDGES_SAT_PER_KVB, FLOW_BUCKET_DECADES, FLOW_BUCKET_EDGE_COUNT,
    FLOW_BUCKETS_PER_DECADE, bucket_count, bucket_index, default_candidate_rates,
    fine_candidate_rates, first_bucket_above, flow_bucket_edges,
};
pub use hold::{enforce_monotone_desc, hold_defined_then_monotone};
pub use marked::{Marked, MarkedMut, rate_of};
pub use percentile::percentile_sat;
pub use publish::{DepthLists, published_depth_rates};
pub use target::{fee_at_target_sat_kvb, lerp_sat_kvb};
