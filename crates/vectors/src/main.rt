// Replays charts whose answers the Rust has given: each line of standard input is a chart in hexadecimal digits, and what is
// printed for all of them is compared with the file `stdout`. `oracle/replay` makes both files.
#![tactic(auto)]

ghost use Rattle.std.specs.Prelude.{◌≡◌, ◌-◌, ◌<◌, ◌&&◌, if◌then◌else◌, nat_le};

use report::{LINKS, ROWS};
use std::alloc::{AllocError, Global};
use std::io::{BufRead, BufReader};

// What a hexadecimal digit stands for; zero for any other byte, also for a capital, which `to_digit` would take; the library's
// decoding would end the program there.
fn digit(byte: u8) -> u8
    ensures small { result < 16 }
    ensures value { result ≡ (if nat_le 48 byte && nat_le byte 57 then byte - 48 else (if nat_le 97 byte && nat_le byte 102 then byte - 87 else 0)) }
{
    match byte {
        b'0'..=b'9' => byte - b'0',
        b'a'..=b'f' => byte - b'a' + 10,
        _ => 0,
    }
}

// The bytes that pairs of digits stand for.
fn decoded(heap: Global, text: &str) -> Result<Vec<u8>, AllocError> {
    let (pairs, _) = text.as_bytes().as_chunks::<2>();
    pairs
        .iter()
        .map(|[high, low]| 16 * digit(*high) + digit(*low))
        .collect(heap)
}

fn replay(rt: &HostRuntime, text: &str) -> anyhow::Result<()> {
    let bytes = decoded(rt.alloc(), text)?;
    report::run(rt, &[], bytes.as_slice(), ROWS, LINKS)?;
    println!(rt; "")?;
    Ok(())
}

fn main(rt: HostRuntime) -> anyhow::Result<()> {
    for line in BufReader::new(rt.alloc(), rt.stdin())?.lines(rt.alloc()) {
        let text = line?;
        replay(&rt, text.as_str())?;
    }
    Ok(())
}
