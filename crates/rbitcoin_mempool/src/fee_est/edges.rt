// The bucket edges, a table whose rule is `flow_bucket_edges`'s series, and the buckets that they make.
// Contracts cite the rule, never the table; a rate's bucket is found without it (`decade`).
ghost use Rattle.std.specs.Prelude.{◌≡◌};
ghost use Rattle.rbitcoin_mempool.specs.Edges.{flow_bucket_edges, bucket_index, first_bucket_above};

use super::decade::first_above;

pub const FLOW_BUCKETS_PER_DECADE: usize = 100;

pub const FLOW_BUCKET_DECADES: usize = 4;

pub const FLOW_BUCKET_EDGE_COUNT: usize = FLOW_BUCKET_DECADES * FLOW_BUCKETS_PER_DECADE + 1;

// sat/kvB: 100 geometric steps a decade, from the relay minimum of 100 to 1,000,000.
pub const FEE_BUCKET_EDGES_SAT_PER_KVB: [u64; 401] = [
    100, 102, 105, 107, 110, 112, 115, 117, 120, 123, 126, 129, 132, 135, 138, 141, 145, 148, 151,
    155, 158, 162, 166, 170, 174, 178, 182, 186, 191, 195, 200, 204, 209, 214, 219, 224, 229, 234,
    240, 245, 251, 257, 263, 269, 275, 282, 288, 295, 302, 309, 316, 324, 331, 339, 347, 355, 363,
    372, 380, 389, 398, 407, 417, 427, 437, 447, 457, 468, 479, 490, 501, 513, 525, 537, 550, 562,
    575, 589, 603, 617, 631, 646, 661, 676, 692, 708, 724, 741, 759, 776, 794, 813, 832, 851, 871,
    891, 912, 933, 955, 977, 1000, 1023, 1047, 1072, 1096, 1122, 1148, 1175, 1202, 1230, 1259,
    1288, 1318, 1349, 1380, 1413, 1445, 1479, 1514, 1549, 1585, 1622, 1660, 1698, 1738, 1778, 1820,
    1862, 1905, 1950, 1995, 2042, 2089, 2138, 2188, 2239, 2291, 2344, 2399, 2455, 2512, 2570, 2630,
    2692, 2754, 2818, 2884, 2951, 3020, 3090, 3162, 3236, 3311, 3388, 3467, 3548, 3631, 3715, 3802,
    3890, 3981, 4074, 4169, 4266, 4365, 4467, 4571, 4677, 4786, 4898, 5012, 5129, 5248, 5370, 5495,
    5623, 5754, 5888, 6026, 6166, 6310, 6457, 6607, 6761, 6918, 7079, 7244, 7413, 7586, 7762, 7943,
    8128, 8318, 8511, 8710, 8913, 9120, 9333, 9550, 9772, 10000, 10233, 10471, 10715, 10965, 11220,
    11482, 11749, 12023, 12303, 12589, 12882, 13183, 13490, 13804, 14125, 14454, 14791, 15136,
    15488, 15849, 16218, 16596, 16982, 17378, 17783, 18197, 18621, 19055, 19498, 19953, 20417,
    20893, 21380, 21878, 22387, 22909, 23442, 23988, 24547, 25119, 25704, 26303, 26915, 27542,
    28184, 28840, 29512, 30200, 30903, 31623, 32359, 33113, 33884, 34674, 35481, 36308, 37154,
    38019, 38905, 39811, 40738, 41687, 42658, 43652, 44668, 45709, 46774, 47863, 48978, 50119,
    51286, 52481, 53703, 54954, 56234, 57544, 58884, 60256, 61660, 63096, 64565, 66069, 67608,
    69183, 70795, 72444, 74131, 75858, 77625, 79433, 81283, 83176, 85114, 87096, 89125, 91201,
    93325, 95499, 97724, 100000, 102329, 104713, 107152, 109648, 112202, 114815, 117490, 120226,
    123027, 125893, 128825, 131826, 134896, 138038, 141254, 144544, 147911, 151356, 154882, 158489,
    162181, 165959, 169824, 173780, 177828, 181970, 186209, 190546, 194984, 199526, 204174, 208930,
    213796, 218776, 223872, 229087, 234423, 239883, 245471, 251189, 257040, 263027, 269153, 275423,
    281838, 288403, 295121, 301995, 309030, 316228, 323594, 331131, 338844, 346737, 354813, 363078,
    371535, 380189, 389045, 398107, 407380, 416869, 426580, 436516, 446684, 457088, 467735, 478630,
    489779, 501187, 512861, 524807, 537032, 549541, 562341, 575440, 588844, 602560, 616595, 630957,
    645654, 660693, 676083, 691831, 707946, 724436, 741310, 758578, 776247, 794328, 812831, 831764,
    851138, 870964, 891251, 912011, 933254, 954993, 977237, 1000000,
];

const LAST_EDGE: u64 = 1_000_000;

// The table.
pub fn flow_bucket_edges() -> [u64; 401]
    ensures { result ≡ flow_bucket_edges }
{
    FEE_BUCKET_EDGES_SAT_PER_KVB
}

// The bucket of a rate. A rate below the first edge shares the first bucket; one above the last is
// in the open bucket, 401.
pub fn bucket_index(rate_sat_per_kvb: u64) -> usize
    ensures { result ≡ bucket_index rate_sat_per_kvb }
{
    let at_or_below = first_above(rate_sat_per_kvb);
    if at_or_below == 0 {
        return 0;
    }
    if rate_sat_per_kvb > LAST_EDGE {
        return 401;
    }
    at_or_below - 1
}

// The number of buckets: the edges' and the open one.
pub fn bucket_count() -> usize
    ensures { result ≡ 402 }
{
    FLOW_BUCKET_EDGE_COUNT + 1
}

// The first bucket whose floor is strictly above a rate, and 402 where every floor is at or below it.
pub fn first_bucket_above(rate_sat_per_kvb: u64) -> usize
    ensures { result ≡ first_bucket_above rate_sat_per_kvb }
{
    let i = first_above(rate_sat_per_kvb);
    if i < 401 {
        return i;
    }
    let open_floor = LAST_EDGE.saturating_add(1);
    if rate_sat_per_kvb < open_floor {
        return 401;
    }
    402
}

// The default candidates of the capacity search: the bucket edges. The Rust has three names for one table.
pub fn default_candidate_rates() -> [u64; 401]
    ensures { result ≡ flow_bucket_edges }
{
    flow_bucket_edges()
}

// The finer candidates: the same edges.
pub fn fine_candidate_rates() -> [u64; 401]
    ensures { result ≡ flow_bucket_edges }
{
    default_candidate_rates()
}
