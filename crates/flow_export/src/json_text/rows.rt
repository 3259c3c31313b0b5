//! Rows as lines of JSON: an object for each. No name and no value needs an escape (`rows_are_objects` of
//! `laws_json`), so what an object has is appended as it is.

ghost use Rattle.std.specs.Prelude.{◌≡◌, ◌++◌, OnOk, length};
ghost use Rattle.flow_export.specs.JsonParts.{AreLabels, interval_members, key_members, labelled_cell, labelled_numbers};
ghost use Rattle.flow_export.specs.JsonText.{row_object_in};
ghost use Rattle.ipfix_elements.specs.JsonValues.{in_quotes, json_number};
ghost use Rattle.ipfix_elements.specs.Texts.{ipv4_text};

use crate::address_text::append_ipv4;
use crate::json_text::labels::{MemberLabel, RowLabels};
use crate::row_lines::RowLines;
use crate::shown_cells::shown_cell;
use flow_table::{Key, Plan, Row};
use ipfix_elements::{Cell, append_json_cell, append_json_number};
use std::alloc::AllocError;

impl RowLines for RowLabels<'_> {
    ghost is_for = { λ labels plan. AreLabels plan labels };

    ghost front_of = { λ labels. interval_members labels.intervals };

    ghost line_of = { λ labels. row_object_in labels.intervals labels.elements.now };

    // The first and the last millisecond.
    fn append_front(
        &self,
        plan: &Plan,
        interval: u64,
        out: &mut Vec<u8>,
    ) -> Result<(), AllocError> {
        let first = self.intervals.first(plan, interval);
        append_member(b"{\"start\":", first, out)?;
        append_member(b",\"end\":", self.intervals.last(plan, interval), out)
    }

    // Its key, its sums and the number of its flows.
    fn append_rest(&self, plan: &Plan, row: &Row, out: &mut Vec<u8>) -> Result<(), AllocError> {
        append_cells(&self.keys, plan.keys(), &row.key, out)?;
        append_sums(&self.counters, &row.sums, out)?;
        append_member(b",\"flows\":", row.flows, out)?;
        out.extend_from_slice(b"}\n")?;
        Ok(())
    }
}

// Appends what stands before a number, and the number.
fn append_member(label: &[u8], number: u64, out: &mut Vec<u8>) -> Result<(), AllocError>
    ensures { OnOk result (out.new.items ≡ out.old.items ++ (label.now ++ json_number number)) }
{
    out.extend_from_slice(label)?;
    append_json_number(number, out)
}

// Appends cells as they are shown, each after its label.
fn append_cells(
    labels: &[MemberLabel],
    keys: &[Key],
    cells: &[Cell],
    out: &mut Vec<u8>,
) -> Result<(), AllocError>
    requires labels { length labels.now ≡ length cells.now }
    requires keys { length keys.now ≡ length cells.now }
    ensures { OnOk result
        (out.new.items ≡ out.old.items ++ key_members labels.now keys.now cells.now) }
{
    for index in 0..cells.len() {
        let cell = shown_cell(&keys[index], cells[index]);
        append_cell(&labels[index], &cell, out)?;
    }
    Ok(())
}

// Appends a cell after its label.
#[tactic(auto, unfolding(ipfix_elements::specs::Texts::cell_text))]
fn append_cell(label: &MemberLabel, cell: &Cell, out: &mut Vec<u8>) -> Result<(), AllocError>
    ensures { OnOk result (out.new.items ≡ out.old.items ++ labelled_cell label.now cell.now) }
{
    out.extend_from_slice(label.text.as_slice())?;
    match cell {
        Cell::Ipv4(address) => append_quoted(address, out),
        Cell::Number(_) | Cell::Ipv6(_) | Cell::Mac(_) => append_json_cell(cell, out),
    }
}

// Appends an address between quotation marks.
fn append_quoted(address: &[u8; 4], out: &mut Vec<u8>) -> Result<(), AllocError>
    ensures { OnOk result (out.new.items ≡ out.old.items ++ in_quotes (ipv4_text address.now)) }
{
    out.push(b'"')?;
    append_ipv4(address, out)?;
    out.push(b'"')?;
    Ok(())
}

// Appends sums, each after its label.
fn append_sums(labels: &[MemberLabel], sums: &[u64], out: &mut Vec<u8>) -> Result<(), AllocError>
    requires { length labels.now ≡ length sums.now }
    ensures { OnOk result (out.new.items ≡ out.old.items ++ labelled_numbers labels.now sums.now) }
{
    for index in 0..sums.len() {
        append_member(labels[index].text.as_slice(), sums[index], out)?;
    }
    Ok(())
}
