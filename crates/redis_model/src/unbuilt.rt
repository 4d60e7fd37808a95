ghost use Rattle.std.specs.Prelude.{List};
ghost use Rattle.std.specs.Coded.{coded_list, coded_ℕ};
ghost use Rattle.kv_base.specs.Map.{Bytes, Map, code};
ghost use Rattle.kv_base.specs.declared.row.Row.{Row};

use std::marker::{Model, Send};

/// A finite map from raw keys to values that is never built: it has no bytes, and contracts alone read it.
#[derive(Drop)]
pub struct UnbuiltMap {
    pub ghost map: { Map Bytes } by { code (coded_list coded_ℕ) },
}

impl Model for UnbuiltMap {
    ghost use base.Fml.{ftrue};

    ghost also_owns = { λ _. ftrue };
}

// A struct with `also_owns` has no Send by itself. This one owns nothing.
unsafe impl Send for UnbuiltMap {}

/// A list of rows that is never built, as `UnbuiltMap` is.
#[derive(Drop)]
pub struct UnbuiltRows {
    pub ghost rows: { List Row },
}

impl Model for UnbuiltRows {
    ghost use base.Fml.{ftrue};

    ghost also_owns = { λ _. ftrue };
}

// As above.
unsafe impl Send for UnbuiltRows {}
