//! What the program prints.
use crate::text::answer::write_answer;
use crate::text::peer_list::{PeerList, lists_of, write_list};
use broadcast_core::{Core, TestMessage};
use broadcast_world::{World, WorldAnswer, WorldLog};
use std::alloc::{AllocError, Global};
use std::io::{self, Write};

/// The lists of a node.
#[derive(Drop)]
pub struct NodeLists<'a> {
    node: u64,
    lists: Vec<PeerList<'a>>,
}

/// Returns the lists of each node that are not empty, in ascending order of nodes and then of
/// peers.
pub fn nodes_of<'a>(
    alloc: Global,
    world: &'a World<u64>,
) -> Result<Vec<NodeLists<'a>>, AllocError> {
    let mut nodes = Vec::with_capacity(alloc, world.nodes().len())?;
    for node in world.nodes().as_slice() {
        let lists = lists_in(alloc, world.core(node))?;
        nodes.push(NodeLists { node: *node, lists })?;
    }
    Ok(nodes)
}

/// Returns the lists of the node that are not empty.
fn lists_in<'a>(
    alloc: Global,
    core: Option<&'a Core<u64, TestMessage, u64>>,
) -> Result<Vec<PeerList<'a>>, AllocError> {
    match core {
        None => Ok(Vec::new(alloc)),
        Some(core) => lists_of(alloc, core),
    }
}

/// Writes the title, the answers and the lists.
pub fn write_part<W: Write>(
    out: &mut W,
    title: &str,
    log: &WorldLog,
    nodes: &[NodeLists<'_>],
) -> io::Result<()> {
    writeln!(out, "{title}")?;
    write_steps(out, log.answers.as_slice())?;
    write_nodes(out, nodes)
}

/// Writes the line of each step.
fn write_steps<W: Write>(out: &mut W, answers: &[WorldAnswer]) -> io::Result<()> {
    for answer in answers {
        write_step(out, answer)?;
    }
    Ok(())
}

/// Writes the line of a step.
fn write_step<W: Write>(out: &mut W, answer: &WorldAnswer) -> io::Result<()> {
    match answer {
        WorldAnswer::Given(answer) => write_answer(out, answer),
        WorldAnswer::NoSuch => out.write_all(b"nosuch\n"),
    }
}

/// Writes the lines of each node.
fn write_nodes<W: Write>(out: &mut W, nodes: &[NodeLists<'_>]) -> io::Result<()> {
    for node in nodes {
        write_node(out, node)?;
    }
    Ok(())
}

/// Writes the lines of a node.
fn write_node<W: Write>(out: &mut W, node: &NodeLists<'_>) -> io::Result<()> {
    write_lists(out, node.node, &node.lists)
}

/// Writes the line of each list of the node.
fn write_lists<W: Write>(out: &mut W, node: u64, lists: &[PeerList<'_>]) -> io::Result<()> {
    for list in lists {
        write_node_list(out, node, list)?;
    }
    Ok(())
}

/// Writes the line of a list of the node.
fn write_node_list<W: Write>(out: &mut W, node: u64, list: &PeerList<'_>) -> io::Result<()> {
    write!(out, "node {node} ")?;
    write_list(out, list)
}
