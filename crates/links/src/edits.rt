// Edits of the heads and links of one row.
ghost use Rattle.std.specs.Prelude.{◌≡◌, ◌<◌, length};
ghost use Rattle.links.specs.Listings.{has};
ghost use Rattle.links.specs.Chains.{linked, listed, Chain, Placed, Spliced, Spliceable};

use crate::lists::{Head, Link, NONE};

// Puts a link at the head of the list of a row, and answers what was the next of the link.
pub(crate) fn place(
    heads: &mut [Head],
    links: &mut [Link],
    row: usize,
    link: u16,
    parent: u16,
) -> u16
    requires row { row < length heads.old }
    requires link { link < length links.old }
    ensures { Placed heads.old heads.new links.old links.new row link parent result }
{
    let next = links[link as usize].next;
    let head = heads[row];
    links[link as usize] = Link {
        parent,
        next: head.first,
    };
    let last = if (head.first as usize) < links.len() {
        head.last
    } else {
        link
    };
    heads[row] = Head {
        first: link,
        last,
        chosen: head.chosen,
    };
    next
}

// Empties the list of a row, whose links come before the free ones, and answers the first that is free.
pub(crate) fn splice(heads: &mut [Head], links: &mut [Link], row: usize, free: u16) -> u16
    requires row { row < length heads.old }
    requires last { Spliceable heads.old links.old row }
    ensures { Spliced heads.old heads.new links.old links.new row free result }
{
    let head = heads[row];
    heads[row] = Head {
        first: NONE,
        last: NONE,
        chosen: NONE,
    };
    if (head.first as usize) < links.len() {
        links[head.last as usize].next = free;
        head.first
    } else {
        free
    }
}

// Whether a link from the first on has the parent.
pub(crate) fn find_from(links: &[Link], first: u16, sought: u16) -> bool
    requires { Chain links.now first (linked links.now first) }
    ensures { result ≡ has sought (listed links.now first) }
{
    let mut link = first as usize;
    while link < links.len() {
        if links[link].parent == sought {
            return true;
        }
        link = links[link].next as usize;
    }
    false
}
