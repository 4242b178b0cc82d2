//! One edit of the order: its first kit becomes a ply.
use crate::listing::Listing;
use calls::events::RecorderEvent;
use model::ids::{IRNode, OpId};
use model::points::OpInsertionPoint;
use model::refusal::Refusal;
use orders::call_error::CallError;
use rewriter::{IRRewriter, Recorder};
use std::alloc::{AllocError, Global};
use std::io;
use store::store::Store;
use walkers::Nodes;

/// The kinds of kits; the ply of a kit has its kind plus `TO_PLY`.
const FIRST_KIT: u16 = 200;

const LAST_KIT: u16 = 299;

const TO_PLY: u16 = 100;

/// The first kit that is listed, with its kind.
fn first_kit(listing: Listing<'_>) -> Option<(OpId, u16)> {
    listing.nodes.iter().find_map(|node| match node {
        IRNode::Operation(op) => match listing.store.kind(*op)? {
            kind @ FIRST_KIT..=LAST_KIT => Some((*op, kind)),
            _ => None,
        },
        _ => None,
    })
}

/// Puts a ply with the kit's note, operands and result types before it, and replaces the kit by it.
fn replace_kit(
    heap: Global,
    store: &mut Store,
    rewriter: &mut IRRewriter<Recorder>,
    kit: OpId,
    ply_kind: u16,
) -> Result<(), CallError> {
    let note = store.note(kit).ok_or(Refusal::NotLive)?;
    let operands = store.operands(kit).ok_or(Refusal::NotLive)?.to_vec(heap)?;
    let types = store
        .result_types(kit)
        .ok_or(Refusal::NotLive)?
        .to_vec(heap)?;
    rewriter.set_insertion_point(OpInsertionPoint::BeforeOperation(kit));
    let ply = rewriter.make_operation(
        store,
        ply_kind,
        note,
        operands.as_slice(),
        types.as_slice(),
        &[],
    )?;
    rewriter.insert_operation(store, ply)?;
    rewriter.replace_operation(store, kit, ply)?;
    Ok(())
}

/// What a record says, by the listing of what was before. An operation that is not listed is the new one.
fn record_line(before: Listing<'_>, event: RecorderEvent) -> Result<String, AllocError> {
    match event {
        RecorderEvent::InsertedOperation(op) => match before.number_of(op) {
            None => format!(in before.heap; "record: the ply was inserted"),
            Some(number) => format!(in before.heap; "record: {number} was inserted"),
        },
        RecorderEvent::ErasedOperation(op) => {
            let number = before.number_of(op).unwrap_or(0);
            format!(in before.heap; "record: {number} was erased")
        }
        RecorderEvent::ReplacedValueUses(old, from, _) => {
            let index = old.index;
            format!(in before.heap;
                "record: uses of its result {index}, of type {from}, were replaced"
            )
        }
        _ => format!(in before.heap; "record: another change"),
    }
}

/// Replaces the first kit by its ply, and prints the records and what the store then holds.
pub fn print_edit(
    rt: &HostRuntime,
    store: &mut Store,
    root: OpId,
    nodes: &mut Nodes,
) -> io::Result<()> {
    let heap = rt.alloc();
    let before = Listing::new(heap, store, nodes);
    let Some((kit, kind)) = first_kit(before) else {
        return println!(rt; "there is no kit to replace");
    };
    let number = before.number_of(kit).unwrap_or(0);
    let ply_kind = kind.saturating_add(TO_PLY);
    println!(rt; "{number}, of kind {kind}, is replaced by a ply of kind {ply_kind}")?;
    let mut rewriter = IRRewriter::new(heap, Recorder::new(heap)?)?;
    match replace_kit(heap, store, &mut rewriter, kit, ply_kind) {
        Ok(()) => {}
        Err(CallError::Memory(error)) => return Err(error.into()),
        Err(refused) => return println!(rt; "{refused}"),
    }
    let before = Listing::new(heap, store, nodes);
    for event in rewriter.get_listener().events() {
        rt.println(record_line(before, *event)?)?;
    }
    match store.walk(root, nodes) {
        Ok(()) => Listing::new(heap, store, nodes).print(rt),
        Err(_) => println!(rt; "the order has gone"),
    }
}
