// The lines that a chart's searches come to. What is refused is printed by its number where it is met, since each line has words of
// its own; the reason goes to standard error.
ghost use Rattle.std.specs.Prelude.{◌≡◌, false, Ok, Err};
ghost use Rattle.planner.specs.declared.refusal.MakeRefusal.TheVariants.{Counts as WrongCounts};
ghost use Rattle.planner.specs.Making.{sizes_of, fit};
ghost use Rattle.report.specs.Wanted.{is_wanted};

use chart::Chart;
use kinds::{Station, Trims};
use planner::{MakeRefusal, Sizes, check};
use routes::{Desk, Memory, Route};
use search::Method;
use std::alloc::{AllocError, Global};
use std::{fmt, io};

/// The rows of the planner of the program `route` (docs/ROUTE.md).
pub const ROWS: usize = 512;

/// The links of that planner.
pub const LINKS: usize = 2000;

/// A search with the cost that it came to. It is printed as the search's name, then the cost.
///
/// # Examples
///
/// `Found { method: Method::Astar, cost: Millis { millis: 20 } }` is printed as `astar 20`.
#[derive(Clone, Copy)]
pub struct Found<C> {
    pub method: Method,
    pub cost: C,
}

impl<C: fmt::Display> fmt::Display for Found<C> {
    ghost use Rattle.std.specs.Prelude.{◌++◌, codes, option_map};
    ghost use Rattle.search.specs.Names.{name_of};

    ghost output = { λ found. option_map (λ text. name_of found.method ++ codes " " ++ text) (C.output found.cost) };

    fn fmt<W: fmt::Write>(&self, f: &mut fmt::Formatter<W>) -> fmt::Result {
        let Found { method, cost } = self;
        write!(f, "{method} {cost}")
    }
}

// Tells on standard error why something was refused. What is printed on standard output and how the program ends do not hang on it: a
// reason that cannot be written is left out.
fn tell<W: fmt::Display + Drop, R: fmt::Display + Drop>(rt: &HostRuntime, refused: W, reason: R) {
    let _ = eprintln!(rt; "{refused}: {reason}");
}

// Prints the routes that are there to be handed out: at most a hundred, since a search that has many is not to fill the screen.
fn print_routes(
    rt: &HostRuntime,
    found: Found<Trims>,
    desk: &mut Desk<Station, Trims>,
) -> io::Result<()> {
    for _ in 0..100 {
        match Route::next(&mut desk.planner, desk.out) {
            Ok(None) => break,
            Ok(Some(route)) => println!(rt; "{found}:{route}")?,
            Err(refusal) => {
                tell(rt, found.method, refusal);
                return println!(rt; "{} refused {}", found.method, u8::from(refusal));
            }
        }
    }
    Ok(())
}

// Runs one search over the chart, and prints what it came to.
fn report(
    rt: &HostRuntime,
    method: Method,
    desk: &mut Desk<Station, Trims>,
    chart: &Chart,
) -> io::Result<()> {
    match desk.planner.seek(method, chart, Station { id: 0 }) {
        Err(refusal) => {
            tell(rt, method, refusal);
            println!(rt; "{method} refused {}", u8::from(refusal))
        }
        Ok(None) => println!(rt; "{method} none"),
        Ok(Some(cost)) => print_routes(rt, Found { method, cost }, desk),
    }
}

// Whether a search is asked for: it is one of these, or there are none.
fn wanted(methods: &[Method], method: Method) -> bool
    ensures { result ≡ is_wanted methods.now method }
{
    methods.is_empty() || methods.contains(&method)
}

// Memory for a planner of so many rows and links; or the refusal of the counts, before any memory is taken.
fn memory_for(
    heap: Global,
    rows: usize,
    links: usize,
) -> Result<Result<Memory<Station, Trims>, MakeRefusal>, AllocError>
    ensures { fit (sizes_of rows links) ≡ false → result ≡ Ok (Err WrongCounts) }
{
    if let Err(refusal) = check(Sizes::of(rows, links)) {
        return Ok(Err(refusal));
    }
    Ok(Ok(Memory::new(heap, Station { id: 0 }, rows, links)?))
}

/// Runs these searches, or all where there are none, over a chart from station 0, with a planner of so many rows and links; and prints
/// what each came to, or that the chart or the counts are refused. A line of standard output has the number of a refusal, and one of
/// standard error its reason, which is left out where it cannot be written.
///
/// # Errors
///
/// That a line of standard output is not written, or that the heap has no memory left for a planner of so many rows and links.
///
/// # Examples
///
/// ```ignore
/// report::run(&rt, &[Method::Astar], bytes, ROWS, LINKS)?; // prints astar 0 2: 0 1 3
/// ```
pub fn run(
    rt: &HostRuntime,
    methods: &[Method],
    bytes: &[u8],
    rows: usize,
    links: usize,
) -> anyhow::Result<()> {
    let chart = match Chart::try_from(bytes) {
        Ok(chart) => chart,
        Err(refusal) => {
            tell(rt, "chart", refusal);
            return Ok(println!(rt; "chart refused {}", u8::from(refusal))?);
        }
    };
    let mut memory = match memory_for(rt.alloc(), rows, links)? {
        Ok(memory) => memory,
        Err(refusal) => {
            tell(rt, "planner", refusal);
            return Ok(println!(rt; "planner refused {}", u8::from(refusal))?);
        }
    };
    let mut desk = memory.desk()?;
    for method in Method::ALL {
        if wanted(methods, method) {
            report(rt, method, &mut desk, &chart)?;
        }
    }
    Ok(())
}
