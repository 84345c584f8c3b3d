//! The file lines of all rows: some order of them, which keeps each row's own, is one that a single table could have made.

use fak_kernel::{FileEntry, ProcessRow, Report};
use fak_text::{Note, Script};
use std::alloc::Global;
use std::process::Abort;

/// The most nodes that the search looks at.
const MOST_NODES: u64 = 2_000_000;

const FREE: FileEntry = FileEntry { inode: 0, uses: 0 };

#[derive(Clone, Copy, Drop)]
enum Call {
    Open,
    Close,
    Stat,
}

/// A line: what was called, of which file, and what it gave.
#[derive(Clone, Copy, Drop)]
struct Line {
    call: Call,
    inode: u64,
    gave: Option<u64>,
}

/// A node of the search: how many lines of each row were made, and the table at that point.
#[derive(Drop)]
struct SearchNode {
    made: Vec<usize>,
    entries: Vec<FileEntry>,
}

/// The file lines of the rows replay from free entries to the report's.
pub fn replay(rt: &impl Abort, alloc: Global, script: &Script, report: &Report) -> bool {
    let mut nodes = Vec::new(alloc);
    let node = first_node(rt, alloc, script, report.rows.len());
    nodes.push(node).expect(rt, "a node");
    for _ in 0..MOST_NODES {
        let Some(node) = nodes.pop() else {
            return false;
        };
        if is_last(report, &node) {
            return true;
        }
        add_next(rt, alloc, report.rows.as_slice(), &node, &mut nodes);
    }
    false
}

fn first_node(rt: &impl Abort, alloc: Global, script: &Script, rows: usize) -> SearchNode {
    SearchNode {
        made: vec![in alloc; 0; rows].expect(rt, "the lines"),
        entries: vec![in alloc; FREE; script.files() as usize].expect(rt, "a table"),
    }
}

/// All lines are made, and the table is the report's.
fn is_last(report: &Report, node: &SearchNode) -> bool {
    let rows = report.rows.as_slice();
    for row in 0..rows.len() {
        if next_line(rows, node, row).is_some() {
            return false;
        }
    }
    node.entries.as_slice() == report.entries.as_slice()
}

/// The nodes that one line more leads to. A line that changes nothing can come at once, whatever comes later.
fn add_next(
    rt: &impl Abort,
    alloc: Global,
    rows: &[ProcessRow],
    node: &SearchNode,
    nodes: &mut Vec<SearchNode>,
) {
    for row in 0..rows.len() {
        if let Some(line) = next_line(rows, node, row) {
            if add_after(rt, alloc, node, row, line, nodes) {
                return;
            }
        }
    }
}

/// Adds the node after this line of this row, if the line could give what it gave. Returns whether it changes nothing.
fn add_after(
    rt: &impl Abort,
    alloc: Global,
    node: &SearchNode,
    row: usize,
    line: Line,
    nodes: &mut Vec<SearchNode>,
) -> bool {
    let mut next = begun(rt, alloc, node, row);
    if made(next.entries.as_mut_slice(), line) != line.gave {
        return false;
    }
    let is_same = next.entries.as_slice() == node.entries.as_slice();
    nodes.push(next).expect(rt, "a node");
    is_same
}

/// A node with one line more of this row, and the entries as before.
fn begun(rt: &impl Abort, alloc: Global, node: &SearchNode, row: usize) -> SearchNode {
    let mut made = node.made.as_slice().to_vec(alloc).expect(rt, "the lines");
    if let Some(count) = made.get_mut(row) {
        *count = count.saturating_add(1);
    }
    SearchNode {
        made,
        entries: node.entries.as_slice().to_vec(alloc).expect(rt, "a table"),
    }
}

fn next_line(rows: &[ProcessRow], node: &SearchNode, row: usize) -> Option<Line> {
    let made = node.made.get(row)?;
    let row = rows.get(row)?;
    row.journal.iter().filter_map(line_of).nth(*made)
}

fn line_of(note: &Note) -> Option<Line> {
    let (call, inode, gave) = match note {
        Note::OpenFile(inode, entry) => (Call::Open, *inode, *entry),
        Note::CloseFile(inode, entry) => (Call::Close, *inode, *entry),
        Note::Stat(inode, uses) => (Call::Stat, *inode, *uses),
        _ => return None,
    };
    Some(Line { call, inode, gave })
}

/// What the call gives, after which the entries are changed.
fn made(entries: &mut [FileEntry], line: Line) -> Option<u64> {
    match line.call {
        Call::Open => open(entries, line.inode),
        Call::Close => close(entries, line.inode),
        Call::Stat => {
            let i = first(entries, line.inode)?;
            Some(entries.get(i)?.uses)
        }
    }
}

fn first(entries: &[FileEntry], inode: u64) -> Option<usize> {
    let mut i = 0usize;
    for entry in entries {
        if entry.inode == inode {
            return Some(i);
        }
        i = i.saturating_add(1);
    }
    None
}

fn open(entries: &mut [FileEntry], inode: u64) -> Option<u64> {
    let i = match first(entries, inode) {
        Some(i) => i,
        None => first(entries, 0)?,
    };
    let entry = entries.get_mut(i)?;
    let uses = entry.uses.saturating_add(1);
    *entry = FileEntry { inode, uses };
    Some(i as u64)
}

fn close(entries: &mut [FileEntry], inode: u64) -> Option<u64> {
    let i = first(entries, inode)?;
    let entry = entries.get_mut(i)?;
    let uses = entry.uses.saturating_sub(1);
    let inode = if uses == 0 { 0 } else { inode };
    *entry = FileEntry { inode, uses };
    Some(i as u64)
}
