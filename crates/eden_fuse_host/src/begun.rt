// What a folder's turns began with.
use std::marker::Brand;

/// What a folder's turns began with, if they have begun. Whoever begins them picks it.
pub(crate) trait Begun {
    ghost use Rattle.std.specs.Prelude.{List};
    ghost use Rattle.eden_fuse_host.specs.Turns.{Beginning};

    ghost begun: { List Beginning };
}

/// The beginning here means nothing: the call that picks gives its own.
impl Begun for Brand {
    ghost use Rattle.std.specs.Prelude.{[]};

    ghost begun = { [] };
}
