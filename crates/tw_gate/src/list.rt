//! Lists of gates, stored in two vectors: the entries in order, and one pool with the controls of all of them.
ghost use Rattle.std.specs.Prelude.{◌≡◌, ◌<◌, ◌≤◌, Bool, List, [], ◌∷◌, ◌++◌, length, map, reverse, slice_get, Some, is_ok, if◌then◌else◌, IfOk, OnOk, OnErr};
ghost use Rattle.std.specs.List.{AllByRecursion};
ghost use Rattle.tw_gate.specs.Gates.{plain, controls_of, act, inverse, SparesControls};
ghost use Rattle.tw_gate.specs.Entries.{gate_of, LiesWithin, inverse_kind, inverse_entry};

use crate::gate::Gate;
use std::alloc::{AllocError, Global};
use std::marker::Model;

#[derive(Debug, Clone, Copy)]
enum Kind {
    X,
    H,
    T,
    Tdg,
}

impl Kind {
    /// The kind of the inverse gate.
    fn inverse(self) -> Kind
        ensures { result ≡ inverse_kind self }
    {
        match self {
            Kind::T => Kind::Tdg,
            Kind::Tdg => Kind::T,
            Kind::X | Kind::H => self,
        }
    }
}

/// A gate of a list, in 12 bytes: its kind, its target or wire, and the position of its controls in the pool.
#[derive(Debug, Clone, Copy)]
struct Entry {
    kind: Kind,
    controls: u16,
    wire: u32,
    from: u32,
}

impl Entry {
    /// The entry of a gate with no controls.
    fn without_controls(kind: Kind, wire: u32) -> Entry
        ensures { result ≡ record { kind = kind; controls = 0; wire = wire; from = 0 } }
    {
        Entry {
            kind,
            controls: 0,
            wire,
            from: 0,
        }
    }

    /// The entry of the inverse gate, which has the same controls.
    fn inverse(self) -> Entry
        ensures { result ≡ inverse_entry self }
    {
        Entry {
            kind: self.kind.inverse(),
            ..self
        }
    }
}

/// A list of gates, in order. A gate takes one entry of fixed size and its controls, and no vector of its own.
#[derive(Debug, Drop)]
pub struct GateList {
    entries: Vec<Entry>,
    pool: Vec<u32>,
}

impl Model for GateList {
    ghost use Rattle.std.specs.Prelude.{List, length, map};
    ghost use Rattle.std.specs.List.{AllByRecursion};
    ghost use Rattle.tw_gate.specs.Gates.{PlainGate};
    ghost use Rattle.tw_gate.specs.Entries.{gate_of, LiesWithin};

    ghost Value = { List PlainGate };

    ghost view = { λ l. map (gate_of l.pool.items) l.entries.items };

    ghost invariant = { λ l. AllByRecursion (LiesWithin (length l.pool.items)) l.entries.items };
}

impl GateList {
    /// The empty list. Does not allocate.
    pub fn new(alloc: Global) -> GateList
        ensures { result ≡ [] }
    {
        GateList {
            entries: Vec::new(alloc),
            pool: Vec::new(alloc),
        }
    }

    /// Appends a gate, of any number of controls in any order.
    /// An error: out of memory, or more controls than a list holds (65,535 of one gate, `2^32` of all). The list is unchanged.
    pub fn push(&mut self, gate: &Gate) -> Result<(), AllocError>
        ensures appended { OnOk result (self.new ≡ self.old ++ plain gate.now ∷ []) }
        ensures unchanged { OnErr result (self.new ≡ self.old) }
    {
        let entry = pool_controls(&mut self.pool, gate)?;
        self.entries.push(entry)?;
        Ok(())
    }

    /// The number of gates.
    pub fn len(&self) -> usize
        ensures { result ≡ length self.now }
    {
        self.entries.len()
    }

    /// The gate at a place, counted from 0. It borrows its controls from the list.
    pub fn gate(&self, place: usize) -> Gate<'_>
        requires { place < length self.now }
        ensures { slice_get self.now place ≡ Some (plain result) }
    {
        let entry = self.entries[place];
        let from = entry.from as usize;
        match entry.kind {
            Kind::X => Gate::X {
                controls: &self.pool[from..from + entry.controls as usize],
                target: entry.wire,
            },
            Kind::H => Gate::H(entry.wire),
            Kind::T => Gate::T(entry.wire),
            Kind::Tdg => Gate::Tdg(entry.wire),
        }
    }
}

/// Appends all of these. If memory runs out, the pool is unchanged. A gate has few controls: a loop is faster than one copy.
fn push_all(pool: &mut Vec<u32>, controls: &[u32]) -> Result<(), AllocError>
    ensures { pool.new.items ≡ (if is_ok result then pool.old.items ++ controls.now else pool.old.items) }
{
    let len = pool.len();
    for control in controls {
        if pool.push(*control).is_err() {
            pool.truncate(len);
            return Err(AllocError);
        }
    }
    Ok(())
}

/// Appends the controls of a gate to the pool, and returns the entry that names them there.
///
/// An error: out of memory, or more controls than an entry names. Then the pool is unchanged.
fn pool_controls(pool: &mut Vec<u32>, gate: &Gate) -> Result<Entry, AllocError>
    ensures grown { pool.new.items ≡ (if is_ok result then pool.old.items ++ controls_of (plain gate.now) else pool.old.items) }
    ensures within { IfOk result (LiesWithin (length pool.new.items)) }
    ensures named { IfOk result (λ entry. gate_of pool.new.items entry ≡ plain gate.now) }
{
    match *gate {
        Gate::X { controls, target } => {
            let Ok(from) = u32::try_from(pool.len()) else {
                return Err(AllocError);
            };
            let Ok(count) = u16::try_from(controls.len()) else {
                return Err(AllocError);
            };
            push_all(pool, controls)?;
            Ok(Entry {
                kind: Kind::X,
                controls: count,
                wire: target,
                from,
            })
        }
        Gate::H(wire) => Ok(Entry::without_controls(Kind::H, wire)),
        Gate::T(wire) => Ok(Entry::without_controls(Kind::T, wire)),
        Gate::Tdg(wire) => Ok(Entry::without_controls(Kind::Tdg, wire)),
    }
}

/// Turns a list into its inverse: the gates in reverse order, with T and its inverse exchanged. Does not allocate.
///
/// If no target is among the controls of its gate, the list and its inverse undo each other on all bits.
pub fn invert(list: &mut GateList)
    ensures inverted { list.new ≡ inverse list.old }
    ensures undone { AllByRecursion SparesControls list.old → (bits : List Bool) → act list.new (act list.old bits) ≡ bits }
    ensures undoes { AllByRecursion SparesControls list.old → (bits : List Bool) → act list.old (act list.new bits) ≡ bits }
{
    invert_entries(&mut list.entries);
}

fn invert_entries(entries: &mut [Entry])
    ensures { entries.new ≡ map inverse_entry (reverse entries.old) }
{
    entries.reverse();
    for entry in entries.iter_mut() {
        *entry = entry.inverse();
    }
}
