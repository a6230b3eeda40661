//! The list of all kept mail.
ghost use Rattle.std.specs.Prelude.{OnOk, OnErr};
ghost use Rattle.std.specs.Io.KnownBytes.{Appends};
ghost use Rattle.office_mail.specs.Written.{AppendsFront};
ghost use Rattle.office_core.specs.Preserves.{Holds};
ghost use Rattle.office_core_queries.specs.Asking.{AsksBoth};
ghost use Rattle.office_core_queries.specs.Listing.{list_text};

use crate::faults::AskFault;
use crate::walk::{Form, write_mail};
use office_core::Office;
use office_mail::Sink;
use office_store_keeper::Keeper;

/// Writes a line for each kept message, by sender and number. It fails only if memory runs out, or the store or the
/// writer fails; then it has written a prefix of the list.
pub fn write_list<K: Keeper, W: Sink>(
    office: &mut Office<K>,
    writer: &mut W,
) -> Result<(), AskFault>
    ensures ok { Holds K.Keeper office.old office.new → OnOk result (Appends (W.written writer.old) (W.written writer.new) (list_text (K.setup office.old) (K.content office.old).kept)) }
    ensures front { Holds K.Keeper office.old office.new → OnErr result (AppendsFront (W.written writer.old) (W.written writer.new) (list_text (K.setup office.old) (K.content office.old).kept)) }
    // Nothing that is kept changes, and no run is finished.
    ensures asks { AsksBoth K.Keeper office.old office.new (W.failures writer.old) (W.failures writer.new) result }
{
    write_mail(office, Form::Line, writer)
}
