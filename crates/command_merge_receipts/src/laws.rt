//! A law of the definitions: a function that does nothing, and whose contract is the theorem.

ghost use Rattle.command_merge_receipts.specs.Steps.{ReceiptsSayParts, StepsSayTheSame};

/// Tables may be merged in steps, days of periods and months of days: what was merged lists
/// together the inputs of all parts, counts their records, and is complete exactly if all parts
/// are and no two inputs with data records have the same octets.
pub fn merged_in_steps()
    // The receipt of a merged table says what those of its parts say together.
    ensures one { ReceiptsSayParts }
    // And such receipts say together what those of all parts do.
    ensures together { StepsSayTheSame }
{}
