//! The sources of programs.
ghost use Rattle.std.specs.Prelude.{◌≡◌};
ghost use Rattle.tw_ground.specs.Sources.{source_text};

/// The kind of a program.
#[derive(Debug, Clone, Copy, PartialEq, Eq)]
pub enum Ground {
    /// The length of a list.
    List,
}

/// The source of `length`, which counts the items of a list, in printed form.
pub const LIST_SOURCE: &str = "\
type list = (uint, ptr<list>);
fun length[n](xs: ptr<list>, acc: uint) -> uint {
  with {
    let e <- xs == null<list>;
  } do {
    if e {
      let out <- acc;
    } else {
      with {
        let t <- default<list>;
        *xs <-> t;
        let next <- t.2;
        let r <- acc + 1;
      } do {
        let out <- length[n - 1](next, r);
      }
    }
  }
  return out;
}
";

/// The source of a program of a kind. Does not allocate.
pub fn source_of(kind: Ground) -> &'static str
    ensures { result.now ≡ source_text kind }
{
    match kind {
        Ground::List => LIST_SOURCE,
    }
}
