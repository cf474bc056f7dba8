// An answer for a caller in another language.
ghost use Rattle.std.specs.Prelude.{◌≡◌};
ghost use Rattle.rbitcoin_mempool.specs.Answer.{answer, found};
ghost use Rattle.rbitcoin_mempool.specs.Outcome.{verdict, verdict_number};
ghost use Rattle.exports.specs.Fields.{Fields};

use rbitcoin_mempool::answer::{Rate, Refusal};

// The number of a refusal or 0; 1 where a rate is there and 0 where it is missing; the rate or 0. Numbers and a mark,
// as C has no Result and no Option.
#[repr(C)]
#[derive(Clone, Copy)]
pub struct RateFields {
    pub refusal: u8,
    pub mark: u8,
    pub rate: u64,
}

// The number of a refusal or 0, as C gets it.
pub(crate) fn refusal_number(outcome: Result<(), Refusal>) -> u8
    ensures { result ≡ verdict_number (verdict outcome) }
{
    outcome.err().map_or(0, u8::from)
}

impl From<Result<Rate, Refusal>> for RateFields {
    ghost from_gives = { λ a fields. Fields (answer a) fields.refusal fields.mark fields.rate };

    fn from(a: Result<Rate, Refusal>) -> RateFields {
        match a {
            Ok(Some(rate)) => RateFields {
                refusal: 0,
                mark: 1,
                rate,
            },
            Ok(None) => RateFields {
                refusal: 0,
                mark: 0,
                rate: 0,
            },
            Err(refusal) => RateFields {
                refusal: refusal.into(),
                mark: 0,
                rate: 0,
            },
        }
    }
}

impl From<Result<u64, Refusal>> for RateFields {
    ghost from_gives = { λ a fields. Fields (found a) fields.refusal fields.mark fields.rate };

    fn from(a: Result<u64, Refusal>) -> RateFields {
        a.map(Some).into()
    }
}
