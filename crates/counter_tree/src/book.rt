//! A watch in memory, with its own suite.
ghost use Rattle.std.specs.Prelude.{◌≡◌, ◌<◌, All, length, IfOk};
ghost use Rattle.std.specs.Option.{option_map};
ghost use Rattle.pmem_base.specs.Geo.{shape_of};
ghost use Rattle.pmem_base.specs.Lines.{IsLine};
ghost use Rattle.counter_tree.specs.Shadow.{FirstDiffers};
ghost use Rattle.counter_tree.specs.Watch.{forged_under, IsSlotClash};
ghost use Rattle.counter_tree.specs.Book.{IsBookOf, HasRoomForTrees, new_watch};
ghost use Rattle.counter_tree.specs.Nodes.{IsNode};
ghost use Rattle.std.proofs.Props.{props};

use crate::differences::{first_difference, top_difference};
use crate::layout::{tree_lines, tree_slots};
use crate::nodes::{NODE_PLACE, Node, TAG_PLACE, stored_node};
use crate::shadow::ShadowTree;
use crate::watch::{LineSeal, Watch};
use line_seal::{put_tag, tag_at};
use pmem_base::{Ctr, Exhibit, Geo, Line, MemFault, Tag};
use seal_ledger::Go;
use std::alloc::Global;
use suite::Suite;

/// A watch that keeps everything that is reported to it. It takes all its memory when it is made; `seen` and `kept`
/// have room for the shadow trees of two lists of slot lines.
#[derive(Drop)]
pub struct WatchBook<S> {
    geo: Geo,
    suite: S,
    seals: Vec<Option<LineSeal>>,
    nodes: Vec<Node>,
    slots: Vec<Line>,
    seen: ShadowTree,
    kept: ShadowTree,
    exhibit: Option<Exhibit>,
    ghost counts: { IsBookOf (shape_of geo) seals.items nodes.items slots.items } by { Prim.hlevel props },
    ghost trees: { HasRoomForTrees (shape_of geo) seen.height kept.height } by { Prim.hlevel props },
    ghost whole_nodes: { All IsNode nodes.items },
    ghost whole_slots: { All IsLine slots.items },
}

impl<S: Suite + Drop> WatchBook<S> {
    ghost use Rattle.counter_tree.specs.BookView.{watch_of};

    /// The watch of a geometry: no seals, zero nodes, empty slots and no exhibit. The one error is want
    /// of memory.
    pub fn new(alloc: Global, geo: &Geo, suite: S) -> Result<WatchBook<S>, MemFault>
        ensures { IfOk result (λ book. watch_of S.formulas_of S.keys book
            ≡ new_watch (record { shape = shape_of geo.now; formulas = S.formulas_of (S.keys suite) })) }
    {
        let seals = vec![in alloc; None; tree_lines(geo) as usize]?;
        let nodes = vec![in alloc; Node([0; 4]); geo.metas() as usize]?;
        let slots = vec![in alloc; Line::default(); tree_slots(geo) as usize]?;
        Ok(WatchBook {
            geo: *geo,
            suite,
            seals,
            nodes,
            slots,
            seen: ShadowTree::new(alloc, geo)?,
            kept: ShadowTree::new(alloc, geo)?,
            exhibit: None,
        })
    }

    /// The first exhibit.
    pub fn exhibit(&self) -> Option<&Exhibit>
        ensures { option_map (λ exhibit. exhibit.now) result ≡ (watch_of S.formulas_of S.keys self.now).exhibit }
    {
        self.exhibit.as_ref()
    }

    /// The clash of these slot lines and the true ones, which first differ at slot `i`.
    fn clash(&mut self, lines: &[Line], i: u32) -> Exhibit
        requires count { length lines.now ≡ length (watch_of S.formulas_of S.keys self.old).slots }
        requires slot { FirstDiffers lines.now (watch_of S.formulas_of S.keys self.old).slots i }
        ensures clash { IsSlotClash (watch_of S.formulas_of S.keys self.old) lines.now result }
        ensures watch { watch_of S.formulas_of S.keys self.new ≡ watch_of S.formulas_of S.keys self.old }
    {
        self.geo.layout_is_one_to_one();
        self.seen.fill(&mut self.suite, lines);
        self.kept.fill(&mut self.suite, &self.slots);
        let x = top_difference(&self.seen, &self.kept, i);
        Exhibit::Clash {
            x,
            first: *self.seen.line(x),
            second: *self.kept.line(x),
        }
    }
}

impl<S: Suite + Drop> Watch for WatchBook<S> {
    ghost use Rattle.counter_tree.specs.BookView.{watch_of};

    ghost watched = { watch_of S.formulas_of S.keys };

    fn note_seal(&mut self, at: u32, counter: u64, cipher: &Line, tag: &Tag) {
        let seal = LineSeal {
            counter,
            cipher: *cipher,
            tag: *tag,
        };
        self.seals[at as usize] = Some(seal);
    }

    fn note_node(&mut self, x: u32, node: &Node) {
        node.is_whole();
        self.nodes[x as usize] = *node;
    }

    fn note_slot(&mut self, i: u32, line: &Line) {
        line.is_whole();
        self.slots[i as usize] = *line;
    }

    fn see_line(&mut self, at: u32, cipher: &Line, tag: &Tag) -> Go {
        let seal = match self.seals[at as usize] {
            Some(seal) => seal,
            None => unreachable!(),
        };
        if *cipher == seal.cipher {
            return Go::On;
        }
        let ctr = Ctr {
            major: seal.counter,
            minor: 0,
        };
        self.exhibit.get_or_insert(Exhibit::Forged {
            at,
            ctr,
            cipher: *cipher,
            tag: *tag,
        });
        Go::Stop
    }

    fn see_node(&mut self, x: u32, line: &Line) -> Go {
        self.geo.layout_is_one_to_one();
        let node = self.nodes[x as usize];
        if stored_node(line) == node {
            return Go::On;
        }
        self.exhibit.get_or_insert(forged_node(x, line, &node));
        Go::Stop
    }

    fn see_slots(&mut self, lines: &[Line]) -> Go {
        match first_difference(lines, &self.slots) {
            None => Go::On,
            Some(i) => {
                let clash = self.clash(lines, i);
                self.exhibit.get_or_insert(clash);
                Go::Stop
            }
        }
    }

    ghost whole = { λ book. (book.whole_nodes, book.whole_slots) };
}

/// The exhibit of a node's line that isn't that of the true node.
fn forged_node(x: u32, line: &Line, node: &Node) -> Exhibit
    requires { x < 5461 }
    ensures { result ≡ forged_under x line.now node.now }
{
    let [first, second, third, fourth] = node.0;
    let major = first
        .wrapping_add(second)
        .wrapping_add(third)
        .wrapping_add(fourth);
    let mut cipher = *line;
    put_tag(&mut cipher, TAG_PLACE, &[0; 16]);
    Exhibit::Forged {
        at: NODE_PLACE + x,
        ctr: Ctr { major, minor: 0 },
        cipher,
        tag: tag_at(line, TAG_PLACE),
    }
}
