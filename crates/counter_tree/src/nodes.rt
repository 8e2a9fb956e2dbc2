//! Nodes of the counter tree and their lines.
ghost use Rattle.std.specs.Prelude.{◌≡◌, ◌≢◌, ◌<◌, ◌≤◌, ◌+◌, ◌*◌, ◌^◌, ◌++◌, ◌==◌, ◌↔◌, All, length, take, drop, replicate, slice_range, IsNone, IsTrue, if◌then◌else◌};
ghost use Rattle.pmem_base.specs.Counts.{risen};
ghost use Rattle.pmem_base.specs.Lines.{big_endian, from_big_endian, same_bytes};
ghost use Rattle.counter_tree.specs.Nodes.{IsNode, zero_node, total, version_of, untagged_line, node_line, node_tag_of, stored_node, has_zero_bytes, has_node_tag, makes_node_tag, node_read};

use line_seal::{put_tag, tag_at};
use pmem_base::{Ctr, Line, Tag};
use suite::Suite;

/// Tags of nodes are taken at this number plus the node's position, past all data lines.
pub(crate) const NODE_PLACE: u32 = 0x8000_0000;

/// A node's tag stands in the last of the four places of 16 bytes of its line.
pub(crate) const TAG_PLACE: u32 = 3;

/// A node of the counter tree: one counter for each of its four children.
#[derive(Clone, Copy, Debug, PartialEq, Eq)]
pub struct Node(pub [u64; 4]);

impl Node {
    /// A law: a node has four counters, each below 2^64.
    pub fn is_whole(&self)
        ensures { IsNode self.now }
    {
        are_counters(&self.0);
    }
}

impl Default for Node {
    ghost is_default = { λ node. node ≡ zero_node };

    fn default() -> Self {
        Node([0; 4])
    }
}

/// A law: counters are below 2^64.
fn are_counters(counters: &[u64])
    ensures { All (λ c. c < 2 ^ 64) counters.now }
{}

/// The version of a node: the sum of its counters, which is its parent's counter for it. `None` if the sum is above
/// 2^64 - 1.
pub fn version(node: &Node) -> Option<u64>
    ensures value { result ≡ version_of node.now }
    ensures none { IsNone result ↔ (2 ^ 64 ≤ total node.now) }
{
    let [first, second, third, fourth] = node.0;
    first
        .checked_add(second)?
        .checked_add(third)?
        .checked_add(fourth)
}

/// The line of node `x`: its counters, 16 zero bytes, and the tag over them under its version.
pub fn node_line<S: Suite>(suite: &mut S, x: u32, node: &Node) -> Line
    requires place { x < 5461 }
    requires version { total node.now < 2 ^ 64 }
    ensures value { result ≡ node_line (S.formulas_of (S.keys suite.old)) x node.now }
    ensures keys { S.keys suite.new ≡ S.keys suite.old }
    ensures pads { S.pads suite.new ≡ S.pads suite.old }
    ensures tags { S.tags suite.new ≡ risen (S.tags suite.old) }
    ensures digests { S.digests suite.new ≡ S.digests suite.old }
{
    let mut line = untagged_line(node);
    let [first, second, third, fourth] = node.0;
    let tag = node_tag(suite, x, first + second + third + fourth, &line);
    put_tag(&mut line, TAG_PLACE, &tag);
    line
}

/// The node of the line read at `x`, if its version is `version`, its parent's counter for it. `None` if bytes 32 to 47
/// aren't zero, the counters don't add up to the version, or the tag is wrong. The tag is made only if the bytes and
/// the sum are right.
pub fn read_node<S: Suite>(suite: &mut S, x: u32, line: &Line, version: u64) -> Option<Node>
    requires { x < 5461 }
    ensures value { result ≡ node_read (S.formulas_of (S.keys suite.old)) x line.now version }
    ensures keys { S.keys suite.new ≡ S.keys suite.old }
    ensures pads { S.pads suite.new ≡ S.pads suite.old }
    ensures tags { S.tags suite.new ≡ (if makes_node_tag line.now version then risen (S.tags suite.old) else S.tags suite.old) }
    ensures digests { S.digests suite.new ≡ S.digests suite.old }
{
    let node = stored_node(line);
    if !has_zero_bytes(line) {
        return None;
    }
    if !has_version(&node, version) {
        return None;
    }
    if !has_node_tag(suite, x, line, version) {
        return None;
    }
    Some(node)
}

// Whether bytes 32 to 47 are zero.
fn has_zero_bytes(line: &Line) -> bool
    ensures { result ≡ has_zero_bytes line.now }
{
    let mut bytes = [0; 16];
    bytes.copy_from_slice(&line.0[32..48]);
    is_same(&bytes, &[0; 16])
}

// Whether this is the node's version.
fn has_version(node: &Node, version: u64) -> bool
    ensures { result ≡ (total node.now == version) }
{
    match self::version(node) {
        Some(found) => found == version,
        None => false,
    }
}

// Whether the line at x has the tag of a node of this version.
fn has_node_tag<S: Suite>(suite: &mut S, x: u32, line: &Line, version: u64) -> bool
    requires { x < 5461 }
    ensures value { result ≡ has_node_tag (S.formulas_of (S.keys suite.old)) x line.now version }
    ensures keys { S.keys suite.new ≡ S.keys suite.old }
    ensures pads { S.pads suite.new ≡ S.pads suite.old }
    ensures tags { S.tags suite.new ≡ risen (S.tags suite.old) }
    ensures digests { S.digests suite.new ≡ S.digests suite.old }
{
    let mut body = *line;
    put_tag(&mut body, TAG_PLACE, &[0; 16]);
    let tag = node_tag(suite, x, version, &body);
    is_same(&tag, &tag_at(line, TAG_PLACE))
}

// The tag of node x's line, whose place for the tag is zero, under a version.
fn node_tag<S: Suite>(suite: &mut S, x: u32, version: u64, line: &Line) -> Tag
    requires { x < 5461 }
    ensures value { result ≡ node_tag_of (S.formulas_of (S.keys suite.old)) x version line.now }
    ensures keys { S.keys suite.new ≡ S.keys suite.old }
    ensures pads { S.pads suite.new ≡ S.pads suite.old }
    ensures tags { S.tags suite.new ≡ risen (S.tags suite.old) }
    ensures digests { S.digests suite.new ≡ S.digests suite.old }
{
    let ctr = Ctr {
        major: version,
        minor: 0,
    };
    suite.tag(NODE_PLACE + x, ctr, line)
}

// The line of a node before its tag is put in.
fn untagged_line(node: &Node) -> Line
    ensures { result ≡ untagged_line node.now }
{
    let mut bytes = [0; 64];
    put_counter(&mut bytes, 0, node.0[0]);
    put_counter(&mut bytes, 8, node.0[1]);
    put_counter(&mut bytes, 16, node.0[2]);
    put_counter(&mut bytes, 24, node.0[3]);
    Line(bytes)
}

// The counters of a line.
pub(crate) fn stored_node(line: &Line) -> Node
    ensures { result ≡ stored_node line.now }
{
    Node([
        counter_at(line, 0),
        counter_at(line, 8),
        counter_at(line, 16),
        counter_at(line, 24),
    ])
}

// Puts the eight bytes of a counter into their place.
pub(crate) fn put_counter(out: &mut [u8], at: usize, counter: u64)
    requires { at + 8 ≤ length out.old }
    ensures { out.new ≡ take at out.old ++ big_endian 8 counter ++ drop (at + 8) out.old }
{
    out[at..at + 8].copy_from_slice(&counter.to_be_bytes());
}

// The counter of the eight bytes from a place on.
pub(crate) fn counter_at(line: &Line, at: usize) -> u64
    requires { at ≤ 56 }
    ensures { result ≡ from_big_endian (slice_range line.now.0 at (at + 8)) }
{
    let mut bytes = [0; 8];
    bytes.copy_from_slice(&line.0[at..at + 8]);
    u64::from_be_bytes(bytes)
}

// Whether two tags are equal.
fn is_same(first: &Tag, second: &Tag) -> bool
    ensures test { result ≡ same_bytes first.now second.now }
    ensures fact { IsTrue result ↔ (first.now ≡ second.now) }
{
    first == second
}
