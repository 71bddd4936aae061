// Reads a chart on standard input, and prints the cheapest route from station 0 by each search.
//
// Arguments name the searches to run; with none, all are run.
#![tactic(auto)]

use anyhow::bail;
use report::{LINKS, ROWS};
use search::Method;
use std::env;
use std::io::Read;

fn main(rt: HostRuntime) -> anyhow::Result<()> {
    let mut methods = Vec::new(rt.alloc());
    for name in env::args(&rt)?.skip(1) {
        let Ok(method) = name.as_str().parse::<Method>() else {
            let [a, b, c, d, last] = Method::ALL;
            eprintln!(rt;
                "route: no search is called {name}: there are {a}, {b}, {c}, {d} and {last}"
            )?;
            bail!("an argument names no search");
        };
        methods.push(method)?;
    }
    let mut bytes = Vec::new(rt.alloc());
    rt.stdin().read_to_end(&mut bytes)?;
    report::run(&rt, methods.as_slice(), bytes.as_slice(), ROWS, LINKS)
}
