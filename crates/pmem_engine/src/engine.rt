//! The engine: the secure controller between its ports and the board.
ghost use Rattle.std.specs.Prelude.{◌≡◌, false, All, length, replicate};
ghost use Rattle.pmem_base.specs.Shape.{IsShape};
ghost use Rattle.pmem_base.specs.Geo.{shape_of};
ghost use Rattle.pmem_base.specs.Layout.{shadow_lines};
ghost use Rattle.pmem_base.specs.Lines.{IsLine, zero_line};
ghost use Rattle.meta_cache.specs.Banks.{IsBanksOf};
ghost use Rattle.meta_cache.specs.State.{IsCacheOf, empty_banks};
ghost use Rattle.meta_path.specs.Blocks.{AreInTheirBanks};
ghost use Rattle.pmem_engine.specs.Engine.{ChipState, EngineState};

use meta_cache::Cache;
use pmem_base::Geo;
use shadow_tables::Mirror;
use std::marker::Model;

/// The controller's parts on the chip but its registers: the metadata cache, the copy of the shadow
/// lines, and whether an earlier call was cut or shown. A contract sees an `EngineState`.
#[derive(Drop)]
pub struct Engine {
    pub(crate) chip: OnChip,
    pub(crate) down: bool,
}

impl Model for Engine {
    ghost use Rattle.pmem_engine.specs.Engine.{EngineState};

    ghost Value = { EngineState };

    ghost view = { λ engine. record {
      shape = engine.chip.shape;
      cache = engine.chip.cache;
      mirror = engine.chip.mirror;
      down = engine.down;
    } };
}

// What the calls of an engine that is up work on: the cache, and the copy of the shadow lines. A contract sees a
// `ChipState`.
#[derive(Drop)]
pub(crate) struct OnChip {
    pub(crate) geo: Geo,
    pub(crate) cache: Cache,
    pub(crate) mirror: Mirror,
}

impl Model for OnChip {
    ghost use Rattle.pmem_engine.specs.Engine.{ChipState};
    ghost use Rattle.std.specs.Prelude.{◌≡◌, All, length};
    ghost use Rattle.pmem_base.specs.Geo.{shape_of};
    ghost use Rattle.pmem_base.specs.Layout.{shadow_lines};
    ghost use Rattle.pmem_base.specs.Lines.{IsLine};
    ghost use Rattle.meta_path.specs.Blocks.{AreInTheirBanks};

    ghost Value = { ChipState };

    ghost view = { λ chip. record {
      shape = shape_of chip.geo;
      cache = chip.cache.banks;
      mirror = chip.mirror;
    } };

    ghost invariant = { λ chip. (chip.cache.shape ≡ shape_of chip.geo)
        × AreInTheirBanks (shape_of chip.geo) chip.cache.banks
        × (length chip.mirror ≡ shadow_lines (shape_of chip.geo))
        × All IsLine chip.mirror };
}

impl Engine {
    /// An engine with nothing cached.
    pub fn new(geo: Geo, cache: Cache, mirror: Mirror) -> Engine
        requires cache { cache ≡ record { shape = shape_of geo; banks = empty_banks (shape_of geo) } }
        requires mirror { mirror ≡ replicate (shadow_lines (shape_of geo)) zero_line }
        ensures { result ≡ record {
          shape = shape_of geo;
          cache = empty_banks (shape_of geo);
          mirror = replicate (shadow_lines (shape_of geo)) zero_line;
          down = false;
        } }
    {
        Engine {
            chip: OnChip { geo, cache, mirror },
            down: false,
        }
    }

    /// The geometry of the memory.
    pub fn geo(&self) -> &Geo
        ensures { shape_of result.now ≡ self.now.shape }
    {
        self.chip.geo()
    }

    /// Whether an earlier call was cut or shown: no call does anything then.
    pub fn is_down(&self) -> bool
        ensures { result ≡ self.now.down }
    {
        self.down
    }

    /// A law: the cache's slots stand in the banks, sets and ways of the engine's shape; those of a set
    /// differ in their ways and positions, and each has a position of its set and of its bank's level, and a line.
    pub fn has_banks(&self)
        ensures banks { IsBanksOf self.now.shape self.now.cache }
        ensures cache { IsCacheOf self.now.shape self.now.cache }
        ensures its_banks { AreInTheirBanks self.now.shape self.now.cache }
    {
        self.chip.has_banks();
    }
}

impl OnChip {
    // The geometry of the memory.
    fn geo(&self) -> &Geo
        ensures { shape_of result.now ≡ self.now.shape }
    {
        &self.geo
    }

    // A law: the cache's slots stand in the banks, sets and ways of its shape, each in the bank of its level.
    fn has_banks(&self)
        ensures banks { IsBanksOf self.now.shape self.now.cache }
        ensures cache { IsCacheOf self.now.shape self.now.cache }
        ensures its_banks { AreInTheirBanks self.now.shape self.now.cache }
    {
        self.cache.are_banks();
    }

    // A law: the numbers of the shape are in their ranges.
    pub(crate) fn has_shape(&self)
        ensures { IsShape self.now.shape }
    {
        self.geo.layout_is_one_to_one();
    }
}
