// Reads a field that is drawn as text on standard input, seeks a route over it by each search, and prints the map with the
// route drawn on it.
#![tactic(auto)]

use std::io;

mod canvas;
mod drawing;
mod header;
mod lines;
mod mistake;
mod reader;
mod searches;
mod signs;
#[cfg(test)]
mod tests;
mod words;

fn main(rt: HostRuntime) -> anyhow::Result<()> {
    let text = io::read_to_string(rt.alloc(), rt.stdin())?;
    answer(&rt, text.as_str())
}

// Prints what the searches over a drawing come to, or what is wrong with it.
fn answer<R: Print + AllocGlobal>(rt: &R, text: &str) -> anyhow::Result<()> {
    match reader::read(rt.alloc(), text) {
        Ok(drawing) => searches::run(rt, &drawing),
        Err(problem) => Ok(println!(rt; "{problem}")?),
    }
}
