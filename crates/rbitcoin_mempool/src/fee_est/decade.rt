// How many edges are at or below a rate, without the table: the edges of a decade are the same 100 numbers in each,
// rounded. A rate in their units is looked up by its leading bits in rows of five.
ghost use Rattle.std.specs.Prelude.{◌≡◌, ◌<◌, ◌≤◌, if◌then◌else◌, nat_lt};
ghost use Rattle.rbitcoin_mempool.specs.Edges.{first_above};
ghost use Rattle.rbitcoin_mempool.specs.Decade.{half_unit, InDecade, Ranked, eighth_start, eighth_end, FiveEdges};

use super::edges::{FLOW_BUCKET_EDGE_COUNT, FLOW_BUCKETS_PER_DECADE};

// Five edges of a decade with the place of the first: from the first in an eighth on; for the last eighth the last
// five.
fn five_from(eighth: usize) -> (usize, [u64; 5])
    requires { (15 ≤ eighth) × (eighth ≤ 41) }
    ensures { FiveEdges eighth result.0 result.1 }
{
    match eighth {
        15 => (0, [1_000_000, 1_023_292, 1_047_128, 1_071_519, 1_096_478]),
        16 => (3, [1_071_519, 1_096_478, 1_122_018, 1_148_153, 1_174_897]),
        17 => (8, [1_202_264, 1_230_268, 1_258_925, 1_288_249, 1_318_256]),
        18 => (12, [1_318_256, 1_348_962, 1_380_384, 1_412_537, 1_445_439]),
        19 => (16, [1_445_439, 1_479_108, 1_513_561, 1_548_816, 1_584_893]),
        20 => (20, [1_584_893, 1_621_810, 1_659_586, 1_698_243, 1_737_800]),
        21 => (24, [1_737_800, 1_778_279, 1_819_700, 1_862_087, 1_905_460]),
        22 => (27, [1_862_087, 1_905_460, 1_949_844, 1_995_262, 2_041_737]),
        23 => (30, [1_995_262, 2_041_737, 2_089_296, 2_137_962, 2_187_761]),
        24 => (33, [2_137_962, 2_187_761, 2_238_721, 2_290_867, 2_344_228]),
        25 => (38, [2_398_832, 2_454_708, 2_511_886, 2_570_395, 2_630_267]),
        26 => (42, [2_630_267, 2_691_534, 2_754_228, 2_818_382, 2_884_031]),
        27 => (46, [2_884_031, 2_951_209, 3_019_951, 3_090_295, 3_162_277]),
        28 => (50, [3_162_277, 3_235_936, 3_311_311, 3_388_441, 3_467_368]),
        29 => (54, [3_467_368, 3_548_133, 3_630_780, 3_715_352, 3_801_893]),
        30 => (57, [3_715_352, 3_801_893, 3_890_451, 3_981_071, 4_073_802]),
        31 => (60, [3_981_071, 4_073_802, 4_168_693, 4_265_795, 4_365_158]),
        32 => (63, [4_265_795, 4_365_158, 4_466_835, 4_570_881, 4_677_351]),
        33 => (68, [4_786_300, 4_897_788, 5_011_872, 5_128_613, 5_248_074]),
        34 => (72, [5_248_074, 5_370_317, 5_495_408, 5_623_413, 5_754_399]),
        35 => (77, [5_888_436, 6_025_595, 6_165_950, 6_309_573, 6_456_542]),
        36 => (80, [6_309_573, 6_456_542, 6_606_934, 6_760_829, 6_918_309]),
        37 => (84, [6_918_309, 7_079_457, 7_244_359, 7_413_102, 7_585_775]),
        38 => (87, [7_413_102, 7_585_775, 7_762_471, 7_943_282, 8_128_305]),
        39 => (90, [7_943_282, 8_128_305, 8_317_637, 8_511_380, 8_709_635]),
        40 => (93, [8_511_380, 8_709_635, 8_912_509, 9_120_108, 9_332_543]),
        _ => (95, [8_912_509, 9_120_108, 9_332_543, 9_549_925, 9_772_372]),
    }
}

// 1 where the edge is below y, else 0.
fn passed(edge: u64, y: u64) -> usize
    ensures { (result ≡ (if nat_lt edge y then 1 else 0)) × (result ≤ 1) }
{
    usize::from(edge < y)
}

// The eighth that y lies in, by its leading bit and the three after it.
fn eighth_of(y: u64) -> usize
    requires { (1000000 ≤ y) × (y < 10000000) }
    ensures { (15 ≤ result) × (result ≤ 41) × (eighth_start result ≤ y) × (y < eighth_end result) }
{
    let zeros = u64::leading_zeros(y);
    (y >> (60 - zeros)) as usize + 8 * (44 - zeros) as usize
}

// How many edges of a decade are below y. All five are counted; `filter` and `count` took over twice the time.
fn rank(y: u64) -> usize
    requires { (1000000 ≤ y) × (y < 10000000) }
    ensures { Ranked y 100 result }
{
    let (first, edges) = five_from(eighth_of(y));
    let mut rank = first;
    for edge in edges {
        rank += passed(edge, y);
    }
    rank
}

fn decade_of(rate: u64) -> usize
    requires { (100 ≤ rate) × (rate < 1000000) }
    ensures { InDecade rate result }
{
    passed(999, rate) + passed(9_999, rate) + passed(99_999, rate)
}

fn half_unit(decade: usize) -> u64
    ensures { result ≡ half_unit decade }
{
    match decade {
        0 => 5_000,
        1 => 500,
        2 => 50,
        _ => 5,
    }
}

// How many edges are at or below a rate. An edge is at most the rate where its fine one is below the rate and half a
// unit.
pub(crate) fn first_above(rate: u64) -> usize
    ensures { result ≡ first_above rate }
{
    if rate < 100 {
        return 0;
    }
    if rate >= 1_000_000 {
        return FLOW_BUCKET_EDGE_COUNT;
    }
    let d = decade_of(rate);
    FLOW_BUCKETS_PER_DECADE * d + rank((2 * rate + 1) * half_unit(d))
}
