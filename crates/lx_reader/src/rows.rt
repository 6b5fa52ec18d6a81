//! The rows of a line are put into the patch.

ghost use Rattle.std.specs.Prelude.{◌≡◌, ◌≢◌, Err, ◌∷◌, [], OnOk, IfErr};
ghost use Rattle.lx_reader.specs.Imports.{IsOkAnd, left, all_triples, IsFaultOf, with_rows};

use crate::fault::ShowFault;
use crate::lists::next_row;
use lx_lex::Tokens;
use lx_show::Show;
use lx_spec::PatchRow;

/// Puts a row into the patch.
fn put_patch_row(show: &mut Show, row: PatchRow)
    ensures { show.new ≡ with_rows (row ∷ []) show.old }
{
    let channels = show.channels().max(row.chan.get());
    show.widen(channels);
    show.put_patch(row);
}

/// Puts the rows of a line into the patch.
pub(crate) fn put_rows(show: &mut Show, i: u32, mut tokens: Tokens) -> Result<(), ShowFault>
    ensures show { OnOk result (IsOkAnd (all_triples i (left tokens.entry)) (λ rows. show.new ≡ with_rows rows show.old)) }
    ensures stop { IfErr result (λ stop. IsFaultOf stop (all_triples i (left tokens.entry))) }
    ensures memory { result ≢ Err ShowFault.Memory }
{
    loop {
        match next_row(i, &mut tokens) {
            Ok(Some(row)) => put_patch_row(show, row),
            Ok(None) => return Ok(()),
            Err(fault) => return Err(ShowFault::Text(fault)),
        }
    }
}
