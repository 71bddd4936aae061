// What the program answers to texts, and what it keeps of them.
use crate::answer;
use crate::reader::read;
use graph::{Layer, only};
use kinds::Millis;
use std::alloc::{AllocError, Global};
use std::cell::RefCell;
use std::test::Fail;
use std::{fmt, io};

// Keeps what is printed.
#[derive(Drop)]
struct Kept {
    text: RefCell<String>,
}

impl Print for Kept {
    fn print<D: fmt::Display + Drop>(&self, value: D) -> io::Result<()> {
        let mut text = self.text.try_borrow_mut().map_err(|_| AllocError)?;
        Ok(write!(text, "{value}")?)
    }

    fn println<D: fmt::Display + Drop>(&self, value: D) -> io::Result<()> {
        let mut text = self.text.try_borrow_mut().map_err(|_| AllocError)?;
        Ok(writeln!(text, "{value}")?)
    }

    fn write_all(&self, _bytes: &[u8]) -> io::Result<()> {
        Ok(())
    }
}

// What a text is answered.
fn printed(heap: Global, text: &str) -> anyhow::Result<String> {
    let kept = RefCell::new(String::new(heap));
    let rt = (Kept { text: kept }, heap);
    answer(&rt, text)?;
    Ok(rt.0.text.into_inner())
}

#[test]
fn lines_that_say_nothing(rt: HostRuntime) -> Result<(), Fail> {
    for (text, line) in [
        (
            "fields 1 1 1",
            "line 1: expected field, start, target, fence, toll or map\n",
        ),
        (
            "\nfield 1 1",
            "line 2: expected field COLUMNS ROWS STEP, three numbers: 1 to 256, 1 to 128 and 1 to 1000\n",
        ),
        (
            "start 0 0 0",
            "line 1: expected start COLUMN ROW, two numbers from 0 to 65535\n",
        ),
        (
            "target 0 65536",
            "line 1: expected target COLUMN ROW, two numbers from 0 to 65535\n",
        ),
        (
            "fence #",
            "line 1: expected fence ZONE, one or more zones by their signs\n",
        ),
        (
            "toll 5",
            "line 1: expected toll MILLIS ZONE, a number from 0 to 4294967295 and one or more zones by their signs\n",
        ),
        ("map 1", "line 1: expected map, with nothing after it\n"),
    ] {
        assert_eq!(rt; printed(rt.alloc(), text)?.as_str(), line);
    }
    Ok(())
}

#[test]
fn lines_out_of_order(rt: HostRuntime) -> Result<(), Fail> {
    for (text, line) in [
        (
            "start 0 0\nstart 0 0",
            "line 2: expected no second line of this word\n",
        ),
        (
            "field 1 1 1\nstart 0 0\nmap",
            "line 3: expected the lines field, start and target before the map\n",
        ),
        (
            "field 1 1 1\nstart 0 0\n",
            "line 3: expected the line map, and the rows of the map after it\n",
        ),
        (
            "",
            "line 1: expected the line map, and the rows of the map after it\n",
        ),
    ] {
        assert_eq!(rt; printed(rt.alloc(), text)?.as_str(), line);
    }
    Ok(())
}

#[test]
fn rows_of_the_map(rt: HostRuntime) -> Result<(), Fail> {
    for (rows, answer) in [
        (
            ".!\n..\n",
            "line 5: column 1: ! is no cell: expected # . 1 to 9, a to z, A to Z, + or -\n",
        ),
        ("..\n...\n", "line 6: expected a row of 2 cells, found 3\n"),
        ("..\n", "line 6: expected 2 rows, found 1\n"),
        (
            "..\n..\n\n..\n",
            "line 8: expected 2 rows, and nothing after them\n",
        ),
        (
            ".. \n#7\n\n",
            "dijkstra 2\n@*\n#!\nastar 2\n@*\n#!\nastar_bag 2\n@*\n#!\nfringe 2\n@*\n#!\nidastar 2\n@*\n#!\n",
        ),
    ] {
        let text = format!(in rt.alloc(); "field 2 2 1\nstart 0 0\ntarget 1 1\nmap\n{rows}")?;
        assert_eq!(rt; printed(rt.alloc(), text.as_str())?.as_str(), answer);
    }
    Ok(())
}

#[test]
fn no_route(rt: HostRuntime) -> Result<(), Fail> {
    for (text, answer) in [
        ("field 2 1 1\nstart 0 0\ntarget 1 0\nmap\n.#\n", "none"),
        (
            "field 2 1 1\nstart 0 0\ntarget 1 0\nfence 7\nmap\n7.\n",
            "refused 7: the start is outside, solid or fenced off",
        ),
        (
            "field 2 1 1\nstart 0 0\ntarget 1 0\ntoll 4294967295 7\nmap\n.7\n",
            "refused 8: a toll does not fit, at the planner's row 0, rank 1, depth 0",
        ),
    ] {
        let lines = format!(in rt.alloc();
            "dijkstra {answer}\nastar {answer}\nastar_bag {answer}\nfringe {answer}\nidastar {answer}\n"
        )?;
        assert_eq!(rt; printed(rt.alloc(), text)?.as_str(), lines.as_str());
    }
    Ok(())
}

// The toll fits on its step; then the step behind it does not, nor the guess, which the others add: fringe where it takes the row.
#[test]
fn no_cost(rt: HostRuntime) -> Result<(), Fail> {
    let text = "field 3 1 1\nstart 0 0\ntarget 2 0\ntoll 4294967294 7\nmap\n.7.\n";
    let lines = "dijkstra refused 10: a cost does not fit, at the planner's row 1, rank 1\n\
                 astar refused 10: a cost does not fit, at the planner's row 0, rank 1\n\
                 astar_bag refused 10: a cost does not fit, at the planner's row 0, rank 1\n\
                 fringe refused 10: a cost does not fit, at the planner's row 1\n\
                 idastar refused 10: a cost does not fit, at the planner's row 0, rank 1\n";
    assert_eq!(rt; printed(rt.alloc(), text)?.as_str(), lines);
    Ok(())
}

#[test]
fn no_field(rt: HostRuntime) -> Result<(), Fail> {
    let line =
        "field refused 2: expected 1 to 256 columns, 1 to 128 rows, a step of 1 to 1000, and the target inside\n";
    let text = "field 1 1 0\nstart 0 0\ntarget 0 0\nmap\n.\n";
    assert_eq!(rt; printed(rt.alloc(), text)?.as_str(), line);
    Ok(())
}

#[test]
fn layers_in_the_order_of_their_lines(rt: HostRuntime) {
    let text = "toll 5 2\nfence 7\ntoll 9 2\nfield 1 1 1\nstart 0 0\ntarget 0 0\nmap\n.\n";
    let layers = read(rt.alloc(), text)
        .ok()
        .map(|drawing| drawing.plan.layers);
    let wanted = [
        Layer::Toll {
            cost: Millis { millis: 5 },
            charged: only(2),
        },
        Layer::Fence { barred: only(7) },
        Layer::Toll {
            cost: Millis { millis: 9 },
            charged: only(2),
        },
    ];
    assert!(rt; layers.is_some_and(|layers| layers.as_slice() == wanted.as_slice()));
}
