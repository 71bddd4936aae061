// What a batch of searches tells its caller.
ghost use Rattle.std.specs.Prelude.{◌≡◌};
ghost use Rattle.capi.specs.Codes.{bare_code};

use crate::failure::Failure;
use kinds::Trims;
use routes::Taken;

/// The code of a search that found no route.
pub const NO_ROUTE: u32 = 100;

/// The code where no search has the number.
pub const NO_METHOD: u32 = 101;

/// The code where the heap has no memory left.
pub const NO_MEMORY: u32 = 102;

/// A code, and the cost and the length of a route: numbers, since a caller in C reads them. In C it is
/// `struct { uint32_t code, trims, millis; size_t length; }`.
///
/// # Examples
///
/// A route of three stations that takes 2 milliseconds and cuts no thread is
/// `Told { code: 0, trims: 0, millis: 2, length: 3 }`; that there is no route is
/// `Told { code: NO_ROUTE, trims: 0, millis: 0, length: 0 }`.
#[repr(C)]
#[derive(Clone, Copy, PartialEq, Eq, Debug)]
pub struct Told {
    /// 0 where there is a route; or the number of a refusal, which is below 100; or `NO_ROUTE`, `NO_METHOD` or `NO_MEMORY`.
    pub code: u32,
    /// How often the route cuts the thread; 0 where there is no route.
    pub trims: u32,
    /// How long the route takes besides, in milliseconds; 0 where there is no route.
    pub millis: u32,
    /// How many stations the route has; 0 where there is no route.
    pub length: usize,
}

impl Told {
    /// A code without a route: neither a cost nor a length.
    ///
    /// # Examples
    ///
    /// `Told::bare(NO_ROUTE)` is what is told where a search finds no route.
    pub fn bare(code: u32) -> Told
        ensures { result ≡ bare_code code }
    {
        Told {
            code,
            trims: 0,
            millis: 0,
            length: 0,
        }
    }
}

// What is told of a search: its route, or a code.
impl From<Result<Taken<Trims>, Failure>> for Told {
    ghost use Rattle.capi.specs.Codes.{told_of};

    ghost from_gives = { λ answer told. told ≡ told_of answer };

    fn from(answer: Result<Taken<Trims>, Failure>) -> Told {
        match answer {
            Ok(Taken { cost, length }) => Told {
                code: 0,
                trims: cost.trims,
                millis: cost.millis,
                length,
            },
            Err(failure) => Told::bare(u32::from(failure)),
        }
    }
}
