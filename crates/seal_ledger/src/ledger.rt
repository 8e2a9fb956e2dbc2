//! A ledger in memory, which has the cipher of each line's last seal without going over the marks.
ghost use Rattle.std.specs.Prelude.{◌≡◌, ◌<◌, All, IfOk, IfSome};
ghost use Rattle.std.specs.Option.{option_map};
ghost use Rattle.pmem_base.specs.Geo.{shape_of};
ghost use Rattle.pmem_base.specs.Lines.{IsLine};
ghost use Rattle.pmem_base.specs.Marks.{last_seal};
ghost use Rattle.seal_ledger.specs.Ciphers.{AreLastCiphers};
ghost use Rattle.seal_ledger.specs.Ledger.{new_ledger, IsOfShape};

use crate::{Audit, Go};
use pmem_base::{Ctr, Exhibit, Geo, GhostLine, Line, Mark, MemFault, Tag};
use std::alloc::Global;

/// An audit that keeps what is printed of each mark, and for each data line the cipher of its last seal, or the zero
/// line if it has none.
#[derive(Drop)]
pub struct Ledger {
    marks: Vec<Mark>,
    ciphers: Vec<Line>,
    truth: Vec<Line>,
    exhibit: Option<Exhibit>,
    ghost last_ciphers: { AreLastCiphers marks.items ciphers.items },
    ghost each_line: { All IsLine truth.items },
}

impl Ledger {
    ghost use Rattle.seal_ledger.specs.View.{capacity_of, ledger_of};

    /// The ledger of a geometry: no marks, zero lines and no exhibit. The one error is want of
    /// memory.
    #[tactic(auto, using(crate::proofs::CipherLemmas::new_ledgers))]
    pub fn new(alloc: Global, geo: &Geo) -> Result<Ledger, MemFault>
        ensures value { IfOk result (λ ledger. ledger_of ledger ≡ new_ledger (shape_of geo.now)) }
        ensures shape { IfOk result (λ ledger. IsOfShape (shape_of geo.now) (ledger_of ledger)) }
        ensures capacity { IfOk result (λ ledger. capacity_of ledger ≡ 0) }
    {
        let ciphers = vec![in alloc; Line::default(); geo.lines() as usize]?;
        let truth = vec![in alloc; Line::default(); geo.metas() as usize]?;
        Ok(Ledger {
            marks: Vec::new(alloc),
            ciphers,
            truth,
            exhibit: None,
        })
    }

    /// The marks in order.
    pub fn marks(&self) -> &[Mark]
        ensures { result.now ≡ (ledger_of self.now).marks }
    {
        &self.marks
    }

    /// The first exhibit.
    pub fn exhibit(&self) -> Option<&Exhibit>
        ensures { option_map (λ exhibit. exhibit.now) result ≡ (ledger_of self.now).exhibit }
    {
        self.exhibit.as_ref()
    }

    /// The cipher of the last seal of a data line.
    #[tactic(auto, using(crate::proofs::CipherLemmas::kept_cipher))]
    fn last_cipher(&self, at: u32) -> &Line
        requires { at < (ledger_of self.now).data_lines }
        ensures { IfSome (last_seal (ledger_of self.now).marks at) (λ seal. result.now ≡ seal.cipher) }
    {
        &self.ciphers[at as usize]
    }
}

impl Audit for Ledger {
    ghost use Rattle.seal_ledger.specs.View.{capacity_of, ledger_of};

    ghost ledger = { ledger_of };

    ghost capacity = { capacity_of };

    fn reserve(&mut self, n: u32) -> Result<(), MemFault> {
        self.marks.reserve(n as usize)?;
        Ok(())
    }

    #[tactic(auto, using(crate::proofs::CipherLemmas::begun_marks))]
    fn note_begin(&mut self, page: u32) {
        self.marks.push_reserved(Mark::Begin { page });
    }

    #[tactic(auto, using(crate::proofs::CipherLemmas::sealed_marks))]
    fn note_seal(&mut self, at: u32, ctr: Ctr, cipher: &Line, tag: &Tag) {
        cipher.is_whole();
        let seal = Mark::Seal {
            at,
            ctr,
            cipher: GhostLine::of(cipher),
            tag: *tag,
        };
        self.marks.push_reserved(seal);
        self.ciphers[at as usize] = *cipher;
    }

    fn note_meta(&mut self, x: u32, line: &Line) {
        line.is_whole();
        self.truth[x as usize] = *line;
    }

    fn note_fetch(&mut self, x: u32, line: &Line) -> Go {
        line.is_whole();
        let truth = self.truth[x as usize];
        if *line == truth {
            return Go::On;
        }
        self.exhibit.get_or_insert(Exhibit::Clash {
            x,
            first: *line,
            second: truth,
        });
        Go::Stop
    }

    fn note_unseal(&mut self, at: u32, ctr: Ctr, cipher: &Line, tag: &Tag) -> Go {
        cipher.is_whole();
        if cipher == self.last_cipher(at) {
            return Go::On;
        }
        self.exhibit.get_or_insert(Exhibit::Forged {
            at,
            ctr,
            cipher: *cipher,
            tag: *tag,
        });
        Go::Stop
    }

    ghost whole = { λ ledger. ledger.each_line };
}
