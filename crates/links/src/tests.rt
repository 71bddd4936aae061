// The parents of a few rows, of which all are kept, and then one.
use crate::lists::{Head, Link};
use crate::parents::{Keeps, Parents};

#[test]
fn all_parents_in_turn(rt: HostRuntime) {
    let mut heads = [Head::new(); 3];
    let mut only = [0; 3];
    let mut links = [Link::new(); 3];
    let mut parents = Parents::new(&mut heads, &mut only, &mut links);
    parents.begin(Keeps::All);
    parents.start_list();
    parents.start_list();
    parents.start_list();
    let first = parents.replace(2, 0);
    let second = parents.add(2, 1);
    let third = parents.replace(1, 0);
    let fourth = parents.add(1, 2);
    assert!(rt; first && second && third && !fourth);
    assert!(rt; parents.contains(2, 0) && !parents.contains(1, 2));
    parents.rewind(2);
    assert_eq!(rt; parents.chosen(2), Some(1));
    assert!(rt; parents.has_older(2));
    parents.pass(2);
    assert_eq!(rt; parents.chosen(2), Some(0));
    let alone = parents.replace(2, 1);
    let again = parents.add(1, 2);
    assert!(rt; alone && again);
}

#[test]
fn one_parent_needs_no_link(rt: HostRuntime) {
    let mut heads = [Head::new(); 2];
    let mut only = [7; 2];
    let mut links: [Link; 0] = [];
    let mut parents = Parents::new(&mut heads, &mut only, &mut links);
    parents.start_list();
    parents.start_list();
    assert_eq!(rt; parents.chosen(1), None);
    let kept = parents.replace(1, 0);
    assert!(rt; kept && parents.contains(1, 0));
    assert_eq!(rt; parents.chosen(1), Some(0));
    assert!(rt; !parents.has_older(1));
    assert_eq!(rt; parents.chosen(0), None);
}
