//! The geometry of a memory, and the place of each part on the device.
ghost use Rattle.std.specs.Prelude.{◌≡◌, ◌<◌, ◌≤◌, ◌^◌, ◌+◌, ◌↔◌, true, false, IsTrue, IsErr, IfOk, IfErr, IsErrOf};
ghost use Rattle.pmem_base.specs.Shape.{HasLevels, HasSets, HasWays, is_loss, IsShape, lazy_levels, named_levels};
ghost use Rattle.pmem_base.specs.Layout.{pages, data_lines, meta_lines, slots, shadow_lines, device_lines, tag_line, meta_line, shadow_line, IsOneToOne};

/// Which number of a geometry is out of its range.
#[derive(Clone, Copy, Debug, PartialEq, Eq)]
pub enum GeoFault {
    Levels = 1,
    Sets = 2,
    Ways = 3,
    Loss = 4,
    Persist = 5,
}

/// How large a memory is (`levels`), how its metadata is cached (`sets` and `ways` of each level's
/// bank), within how many writes a counter block is written back (`loss`), the first major, the
/// persistence policy: how many of the lowest lines of a path stand in the group of each write
/// (`persist`), and whether the device has shadow tables (`shadow`); and whether the write queues
/// outlive power (`durable`), and whether a posted line takes the place of the newest one that waits
/// for its place (`combines`).
#[derive(Clone, Copy, Debug, PartialEq, Eq)]
pub struct Geo {
    levels: u8,
    sets: u8,
    ways: u8,
    loss: u8,
    major: u64,
    persist: u8,
    shadow: bool,
    durable: bool,
    combines: bool,
    pub ghost has_levels: { HasLevels levels },
    pub ghost has_sets: { HasSets sets },
    pub ghost has_ways: { HasWays ways },
    pub ghost has_loss: { IsTrue (is_loss loss) },
    pub ghost has_major: { major < 2 ^ 64 },
    pub ghost has_persist: { persist ≤ levels + 1 },
}

impl Geo {
    ghost use Rattle.pmem_base.specs.Geo.{shape_of};

    /// The geometry of these numbers. No line of a path stands in each group, and the device has shadow tables;
    /// `with_policy` changes both. Its queues are volatile and combine nothing; `with_queues` changes both. Errors: the
    /// first of the numbers, in this order, that is out of its range.
    pub fn new(levels: u8, sets: u8, ways: u8, loss: u8, major: u64) -> Result<Geo, GeoFault>
        ensures levels { IsErrOf result GeoFault.Levels ↔ (¬ HasLevels levels) }
        ensures sets { IsErrOf result GeoFault.Sets ↔ (HasLevels levels × ¬ HasSets sets) }
        ensures ways { IsErrOf result GeoFault.Ways ↔ (HasLevels levels × HasSets sets × ¬ HasWays ways) }
        ensures loss { IsErrOf result GeoFault.Loss
            ↔ (HasLevels levels × HasSets sets × HasWays ways × ¬ IsTrue (is_loss loss)) }
        ensures persist { ¬ IsErrOf result GeoFault.Persist }
        ensures ok { IfOk result (λ geo. shape_of geo
            ≡ record {
              levels = levels;
              sets = sets;
              ways = ways;
              loss = loss;
              major = major;
              persist = 0;
              shadow = true;
              durable = false;
              combines = false;
            }) }
    {
        if !(1..=6).contains(&levels) {
            return Err(GeoFault::Levels);
        }
        if !(1..=64).contains(&sets) {
            return Err(GeoFault::Sets);
        }
        if !(1..=8).contains(&ways) {
            return Err(GeoFault::Ways);
        }
        if !matches!(loss, 1 | 2 | 4 | 8 | 16) {
            return Err(GeoFault::Loss);
        }
        Ok(Geo {
            levels,
            sets,
            ways,
            loss,
            major,
            persist: 0,
            shadow: true,
            durable: false,
            combines: false,
        })
    }

    /// The same memory under another persistence policy: the `persist` lowest lines of a path, at most
    /// all of them, stand in the group of each write, and the device has shadow tables if `shadow`. The
    /// error is `Persist`.
    pub fn with_policy(self, persist: u8, shadow: bool) -> Result<Geo, GeoFault>
        ensures refused { IsErr result ↔ ((shape_of self).levels + 1 < persist) }
        ensures fault { IfErr result (λ fault. fault ≡ GeoFault.Persist) }
        ensures ok { IfOk result (λ geo. shape_of geo ≡ record (shape_of self) { persist = persist; shadow = shadow }) }
    {
        if persist > self.levels + 1 {
            return Err(GeoFault::Persist);
        }
        Ok(Geo {
            levels: self.levels,
            sets: self.sets,
            ways: self.ways,
            loss: self.loss,
            major: self.major,
            persist,
            shadow,
            durable: self.durable,
            combines: self.combines,
        })
    }

    /// The same memory with other queues: they outlive power if `durable`, and combine posted lines if
    /// `combines`.
    pub fn with_queues(self, durable: bool, combines: bool) -> Geo
        ensures { shape_of result ≡ record (shape_of self) { durable = durable; combines = combines } }
    {
        let mut geo = self;
        geo.durable = durable;
        geo.combines = combines;
        geo
    }

    /// The levels of tree nodes above the counter blocks, 1 to 6.
    pub fn levels(&self) -> u8
        ensures { result ≡ (shape_of self.now).levels }
    {
        self.levels
    }

    /// The sets of a bank, 1 to 64.
    pub fn sets(&self) -> u8
        ensures { result ≡ (shape_of self.now).sets }
    {
        self.sets
    }

    /// The ways of a set, 1 to 8.
    pub fn ways(&self) -> u8
        ensures { result ≡ (shape_of self.now).ways }
    {
        self.ways
    }

    /// The stop-loss number that a memory is formatted with: 1, 2, 4, 8 or 16.
    pub fn loss(&self) -> u8
        ensures { result ≡ (shape_of self.now).loss }
    {
        self.loss
    }

    /// The major counter that a memory is formatted with.
    pub fn major(&self) -> u64
        ensures { result ≡ (shape_of self.now).major }
    {
        self.major
    }

    /// How many of the lowest lines of a path stand in the group of each write, 0 to `levels` + 1.
    pub fn persist(&self) -> u8
        ensures value { result ≡ (shape_of self.now).persist }
        ensures bound { result ≤ (shape_of self.now).levels + 1 }
    {
        self.persist
    }

    /// Whether the device has shadow tables.
    pub fn has_shadow(&self) -> bool
        ensures { result ≡ (shape_of self.now).shadow }
    {
        self.shadow
    }

    /// The number of lazy levels, from the top down: their blocks are written back when they are
    /// evicted or flushed. Blocks of the others are written within each group that changes them.
    pub fn lazy_levels(&self) -> u8
        ensures value { result ≡ lazy_levels (shape_of self.now) }
        ensures bound { result ≤ (shape_of self.now).levels + 1 }
    {
        self.levels + 1 - self.persist
    }

    /// The number of levels, from the top down, whose blocks are named in the shadow tables before they
    /// get dirty: the lazy ones, and none on a device without shadow tables.
    pub fn named_levels(&self) -> u8
        ensures value { result ≡ named_levels (shape_of self.now) }
        ensures bound { result ≤ (shape_of self.now).levels + 1 }
    {
        if self.shadow { self.lazy_levels() } else { 0 }
    }

    /// Whether the write queues outlive power.
    pub fn is_durable(&self) -> bool
        ensures { result ≡ (shape_of self.now).durable }
    {
        self.durable
    }

    /// Whether a posted line takes the place of the newest one that waits for its place.
    pub fn combines(&self) -> bool
        ensures { result ≡ (shape_of self.now).combines }
    {
        self.combines
    }

    /// The number of pages, of 64 data lines each.
    #[tactic(auto, using(crate::proofs::LayoutLemmas::page_bounds))]
    pub fn pages(&self) -> u32
        ensures value { result ≡ pages (shape_of self.now) }
        ensures least { 4 ≤ result }
        ensures bound { result ≤ 4096 }
    {
        4_u32.pow(u32::from(self.levels))
    }

    /// The number of data lines.
    pub fn lines(&self) -> u32
        ensures value { result ≡ data_lines (shape_of self.now) }
        ensures bound { result ≤ 262144 }
    {
        64 * self.pages()
    }

    /// The number of counter blocks and nodes.
    pub fn metas(&self) -> u32
        ensures value { result ≡ meta_lines (shape_of self.now) }
        ensures bound { result ≤ 5461 }
    {
        (4 * self.pages() - 1) / 3
    }

    /// The slots of one bank of the metadata cache.
    pub fn slots(&self) -> u32
        ensures value { result ≡ slots (shape_of self.now) }
        ensures bound { result ≤ 512 }
    {
        u32::from(self.sets) * u32::from(self.ways)
    }

    /// The number of shadow lines; 0 without shadow tables.
    pub fn shadows(&self) -> u32
        ensures value { result ≡ shadow_lines (shape_of self.now) }
        ensures bound { result ≤ 224 }
    {
        if !self.shadow {
            return 0;
        }
        let slots = self.slots();
        slots.div_ceil(16) + (u32::from(self.levels) * slots).div_ceil(16)
    }

    /// The number of device lines.
    pub fn size(&self) -> u32
        ensures value { result ≡ device_lines (shape_of self.now) }
        ensures bound { result ≤ 333365 }
    {
        80 * self.pages() + self.metas() + self.shadows()
    }

    /// The device line with the tag of data line `at`.
    pub fn tag_line(&self, at: u32) -> u32
        requires { at < data_lines (shape_of self.now) }
        ensures value { result ≡ tag_line (shape_of self.now) at }
        ensures within { result < device_lines (shape_of self.now) }
    {
        self.lines() + at / 4
    }

    /// The device line of the metadata line at `x`.
    pub fn meta_line(&self, x: u32) -> u32
        requires { x < meta_lines (shape_of self.now) }
        ensures value { result ≡ meta_line (shape_of self.now) x }
        ensures within { result < device_lines (shape_of self.now) }
    {
        80 * self.pages() + x
    }

    /// The device line of shadow line `n`.
    pub fn shadow_line(&self, n: u32) -> u32
        requires { n < shadow_lines (shape_of self.now) }
        ensures value { result ≡ shadow_line (shape_of self.now) n }
        ensures within { result < device_lines (shape_of self.now) }
    {
        80 * self.pages() + self.metas() + n
    }

    /// A law: the numbers are in their ranges, no two parts of the memory stand at one place of the
    /// device, and together they fill it.
    pub fn layout_is_one_to_one(&self)
        ensures ranges { IsShape (shape_of self.now) }
        ensures places { IsOneToOne (shape_of self.now) }
    {}
}
