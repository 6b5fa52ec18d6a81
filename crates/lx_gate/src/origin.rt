//! What a gate was opened over.
ghost use Rattle.std.specs.Prelude.{[]};
ghost use Rattle.lx_spec.specs.Show.{Show};
ghost use Rattle.logbook.specs.Pages.{Book};
ghost use Rattle.lx_base.specs.declared.TheConstants.{DEFAULT_CHANNELS};

use std::marker::Brand;

/// The show that a gate was opened over, and its history. It exists for proofs alone, and each call from outside picks it.
pub trait Origin {
    ghost show: { Show };

    ghost book: { Book };
}

impl Origin for Brand {
    ghost show = { record { channels = DEFAULT_CHANNELS; cues = []; groups = []; subs = []; patch = [] } };

    ghost book = { record { number = 0; log_name = 0; cells_name = 0 } };
}
