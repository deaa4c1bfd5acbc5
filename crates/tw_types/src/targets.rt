//! The table of the targets of pointers.
ghost use Rattle.std.specs.Prelude.{◌≡◌, ◌<◌, ◌≤◌, [], Some, length, IfOk, OnOk, OnErr};
ghost use Rattle.tw_types.specs.Table.{AreDistinct, defined, interned, place_of, ty_at, written_at};
ghost use Rattle.tw_types.specs.FromCode.{ty_of};

use crate::types::{TargetId, Ty};
use indexmap::IndexMap;
use std::alloc::{AllocError, Global};
use std::marker::Model;

/// The targets of pointers, in the order in which they were first seen: each as a program writes it, and the type that it
/// denotes. Their texts are all different, and there are at most 4,294,967,295 targets.
#[derive(Drop)]
pub struct Targets<'a> {
    table: IndexMap<&'a str, Ty<'a>>,
}

impl<'a> Model for Targets<'a> {
    ghost use Rattle.std.specs.Prelude.{◌≤◌, List, length};
    ghost use Rattle.tw_types.specs.Types.{Target};
    ghost use Rattle.tw_types.specs.Table.{AreDistinct};
    ghost use Rattle.tw_types.specs.FromCode.{targets_of};
    ghost use Rattle.tw_types.specs.Coding.{target_code};
    ghost use Rattle.std.specs.Coded.{coded_list};

    ghost Value = { List Target };

    ghost coded = { coded_list target_code };

    ghost view = { λ targets. targets_of targets.table.entries };

    ghost invariant = { λ targets. (length (targets_of targets.table.entries) ≤ 4294967295) × AreDistinct (targets_of targets.table.entries) };
}

impl<'a> Targets<'a> {
    /// No targets. Does not allocate.
    pub fn new(alloc: Global) -> Targets<'a>
        ensures { result ≡ [] }
    {
        Targets {
            table: IndexMap::new(alloc),
        }
    }

    /// The number of targets.
    pub fn len(&self) -> u32
        ensures count { result ≡ length self.now }
        ensures distinct { AreDistinct self.now }
    {
        self.table.len() as u32
    }

    /// The place of the target with this text. A new one is appended, and denotes `()` until it is defined.
    /// There are fewer than 4,294,967,295 targets. An error: out of memory, and the targets are unchanged.
    pub fn intern(&mut self, written: &'a str) -> Result<TargetId, AllocError>
        requires room { length self.old < 4294967295 }
        ensures place { IfOk result (λ id. place_of written.now self.new ≡ Some (id.0)) }
        ensures appended { OnOk result (self.new ≡ interned written.now self.old) }
        ensures unchanged { OnErr result (self.new ≡ self.old) }
    {
        if let Some(place) = self.table.get_index_of(written) {
            return Ok(TargetId(place as u32));
        }
        let place = self.table.len();
        self.table.insert(written, Ty::Unit)?;
        Ok(TargetId(place as u32))
    }

    /// Sets the type that a target denotes. Does not allocate.
    pub fn define(&mut self, id: TargetId, ty: Ty<'a>)
        requires known { id.0 < length self.old }
        ensures { self.new ≡ defined (id.0) (ty_of ty.entry) self.old }
    {
        self.table[id.0 as usize] = ty;
    }

    /// The text of a target.
    pub fn written(&self, id: TargetId) -> &'a str
        requires known { id.0 < length self.now }
        ensures { written_at self.now (id.0) ≡ Some result.now }
    {
        let (written, _) = self.table.get_index(id.0 as usize).unwrap();
        written
    }

    /// The type that a target denotes.
    pub fn ty(&self, id: TargetId) -> Ty<'a>
        requires known { id.0 < length self.now }
        ensures { ty_at self.now (id.0) ≡ Some (ty_of result) }
    {
        self.table[id.0 as usize]
    }
}
