//! Reads an order from standard input, makes it in a store, prints what the store holds, and makes and prints one edit of it.

#![tactic(auto)]

mod edit;
mod listing;

use crate::edit::print_edit;
use crate::listing::Listing;
use model::ids::OpId;
use orders::load::load;
use std::io;
use store::store::Store;
use walkers::Nodes;

/// Prints the operations of the order that `root` holds and how many there are of each kind, and then one edit of it.
fn print_order(rt: &HostRuntime, store: &mut Store, root: OpId) -> io::Result<()> {
    let mut nodes = Nodes::new(rt.alloc())?;
    if let Err(refusal) = store.walk(root, &mut nodes) {
        let number = u16::from(refusal);
        return println!(rt; "the order cannot be walked: refused by {number}");
    }
    Listing::new(rt.alloc(), store, &nodes).print(rt)?;
    print_edit(rt, store, root, &mut nodes)
}

fn main(rt: HostRuntime) -> io::Result<()> {
    let heap = rt.alloc();
    let Ok(text) = io::read_to_string(heap, rt.stdin()) else {
        return println!(rt; "the order is no text");
    };
    let mut store = Store::new(heap)?;
    match load(heap, &mut store, text.as_str()) {
        Ok(root) => print_order(&rt, &mut store, root),
        Err(fault) => println!(rt; "{fault}"),
    }
}
