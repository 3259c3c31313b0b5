//! Partial tables, which records are added to and which are merged into one.

ghost use Rattle.std.specs.Prelude.{◌≡◌, ◌∷◌, [], None, Some, Err, IfOk, IfErr, OnOk, IfSome};
ghost use Rattle.flow_table.specs.Fitting.{FitsPlan};
ghost use Rattle.ipfix_message.specs.Outcome.{unless};
ghost use Rattle.flow_table.specs.Partials.{Adds, ForBoth, ForLists, ForRecords, Failed, IsLargeIfSumTooLarge, IsSmallIfOk, IsTooLargeFor, StandsFor, fault_of, plan_of};
ghost use Rattle.flow_table.specs.Reading.{class_of};
ghost use Rattle.flow_table.specs.TableFaults.{OnSumTooLarge};
ghost use Rattle.flow_table.specs.Tables.{AreTooMany, IsLargeRow, IsTable};
ghost use Rattle.flow_table.specs.declared.table_fault.TableFault.TheVariants.{OutOfMemory, SumTooLarge};

use crate::adding::Room;
use crate::class::Class;
use crate::finishing::finish_table;
use crate::flat_table::FlatTable;
use crate::merging::join;
use crate::missing::{Missing, missing_together};
use crate::plan::Plan;
use crate::rows::Rows;
use crate::table::{RowPlace, Table};
use crate::table_fault::TableFault;
use crate::taking::take;
use crate::tally::Tally;
use crate::words::write_cells;
use ipfix_message::DataRecord;
use std::alloc::{AllocError, Global};

/// The table of some data records under a plan, to which more are added, and which is merged with
/// that of others. It stands for the list of all these records.
///
/// After a fault it answers this fault for ever.
#[derive(Drop)]
pub struct Partial {
    alloc: Global,
    plan: Plan,
    rows: Rows,
    tally: Tally,
    missing: Missing,
    fault: Option<TableFault>,
    room: Room,
}

impl Partial {
    /// The table of no records. It keeps a copy of the plan.
    ///
    /// The fault is `OutOfMemory`: an allocation was refused.
    pub fn new(alloc: Global, plan: &Plan) -> Result<Partial, TableFault>
        ensures plan { IfOk result (λ p. plan_of p ≡ plan.now) }
        ensures fault { IfOk result (λ p. fault_of p ≡ None) }
        ensures empty { IfOk result (λ p. StandsFor p []) }
        ensures err { IfErr result (λ e. e ≡ OutOfMemory) }
    {
        Ok(Partial {
            alloc,
            plan: plan.copy(alloc)?,
            rows: Rows::new(alloc, plan),
            tally: Tally::EMPTY,
            missing: Missing::NONE,
            fault: None,
            room: Room {
                words: Vec::new(alloc),
                counters: Vec::new(alloc),
                shares: Vec::new(alloc),
                interval: 0,
                last: None,
            },
        })
    }

    /// Adds a record, and answers its class.
    ///
    /// The fault is `SumTooLarge` if a sum, a number of flows or a count of the tally would be 2^64 or
    /// more with the record, and `OutOfMemory` if an allocation was refused. Each later call answers
    /// it again.
    pub fn add(&mut self, data_record: &DataRecord) -> Result<Class, TableFault>
        ensures plan { plan_of self.new ≡ plan_of self.old }
        ensures answer { result
            ≡ unless (fault_of self.new) (class_of (plan_of self.old) data_record.now) }
        ensures sticky { Failed self.old → fault_of self.new ≡ fault_of self.old }
        ensures adds { Adds self.old (data_record.now ∷ []) self.new }
        ensures small { IsSmallIfOk self.old (data_record.now ∷ []) result }
        ensures large { IsLargeIfSumTooLarge self.old (data_record.now ∷ []) result }
    {
        if let Some(fault) = self.fault {
            return Err(fault);
        }
        let result = take(
            &self.plan,
            &mut self.rows,
            &mut self.tally,
            &mut self.missing,
            &mut self.room,
            data_record,
        );
        self.fault = result.err();
        result
    }

    /// Adds all records of another partial table of the same plan.
    ///
    /// The fault is this table's own earlier one, then that of the other, then `SumTooLarge` if a sum,
    /// a number of flows or a count of the tally would be 2^64 or more, or `OutOfMemory` if an
    /// allocation was refused. Each later call answers it again.
    pub fn merge(&mut self, other: Partial) -> Result<(), TableFault>
        requires { plan_of other ≡ plan_of self.old }
        ensures plan { plan_of self.new ≡ plan_of self.old }
        ensures answer { result ≡ unless (fault_of self.new) tt }
        ensures sticky { Failed self.old → fault_of self.new ≡ fault_of self.old }
        ensures takes_over { fault_of self.old ≡ None → Failed other
            → fault_of self.new ≡ fault_of other }
        ensures merges { ForBoth self.old other (StandsFor self.new) }
        ensures small { ForBoth self.old other (λ rs. OnOk result (IsTooLargeFor self.old rs → ⊥)) }
        ensures large { ForBoth self.old other
            (λ rs. OnSumTooLarge result (IsTooLargeFor self.old rs)) }
    {
        let Partial {
            rows,
            tally,
            missing,
            fault,
            room,
            ..
        } = other;
        if let Some(fault) = self.fault {
            return Err(fault);
        }
        if let Some(fault) = fault {
            self.fault = Some(fault);
            self.room = room;
            return Err(fault);
        }
        let result = join(
            self.alloc,
            &self.plan,
            &mut self.rows,
            &mut self.tally,
            rows,
            &tally,
            &mut self.room,
        );
        self.missing = missing_together(&self.missing, &missing);
        self.fault = result.err();
        result
    }

    /// The fault that it answers, if any.
    pub fn fault(&self) -> Option<TableFault>
        ensures { result ≡ fault_of self.now }
    {
        self.fault
    }

    /// After `SumTooLarge` a row of which a sum or the number of flows would be 2^64 or more, if it isn't a count of
    /// the tally that would be.
    ///
    /// The error is an allocation that was refused.
    pub fn large_row(&self) -> Result<Option<RowPlace>, AllocError>
        ensures row { ForLists self.now
            (λ plan rs. IfOk result (λ row. IfSome row (IsLargeRow plan rs))) }
        ensures none { ForLists self.now (λ plan rs. IfOk result (λ row. row ≡ None
            → fault_of self.now ≡ Some SumTooLarge → AreTooMany plan rs)) }
    {
        if self.fault != Some(TableFault::SumTooLarge) {
            return Ok(None);
        }
        let Some(interval) = self.room.last else {
            return Ok(None);
        };
        let mut key = Vec::new(self.alloc);
        write_cells(self.plan.kinds(), &self.room.words, &mut key)?;
        Ok(Some(RowPlace { interval, key }))
    }

    /// The table of all records, whose rows are made as they are asked for.
    ///
    /// The fault is the earlier one, or `OutOfMemory` if an allocation was refused.
    pub fn finish_flat(self) -> Result<FlatTable, TableFault>
        ensures fault { IfSome (fault_of self) (λ fault. result ≡ Err fault) }
        ensures err { fault_of self ≡ None → IfErr result (λ e. e ≡ OutOfMemory) }
        ensures table { ForRecords self (λ rs. IfOk result (IsTable (plan_of self) rs)) }
        ensures fits { ForRecords self (λ rs. IfOk result (FitsPlan (plan_of self))) }
        ensures small { ForRecords self (λ rs. OnOk result (IsTooLargeFor self rs → ⊥)) }
        ensures large { ForRecords self (λ rs. OnSumTooLarge result (IsTooLargeFor self rs)) }
    {
        let Partial {
            alloc,
            plan,
            rows,
            tally,
            missing,
            fault,
            ..
        } = self;
        match fault {
            Some(fault) => Err(fault),
            None => finish_table(alloc, plan, rows, tally, missing),
        }
    }

    /// The table of all records.
    ///
    /// The fault is the earlier one, or `OutOfMemory` if an allocation was refused.
    pub fn finish(self) -> Result<Table, TableFault>
        ensures fault { IfSome (fault_of self) (λ fault. result ≡ Err fault) }
        ensures err { fault_of self ≡ None → IfErr result (λ e. e ≡ OutOfMemory) }
        ensures table { ForRecords self (λ rs. IfOk result (IsTable (plan_of self) rs)) }
        ensures fits { ForRecords self (λ rs. IfOk result (FitsPlan (plan_of self))) }
        ensures small { ForRecords self (λ rs. OnOk result (IsTooLargeFor self rs → ⊥)) }
        ensures large { ForRecords self (λ rs. OnSumTooLarge result (IsTooLargeFor self rs)) }
    {
        Ok(self.finish_flat()?.into_table()?)
    }
}
