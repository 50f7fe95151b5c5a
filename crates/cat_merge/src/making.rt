//! What a merge makes of its inputs' columns and ids while it passes their rows.
ghost use Rattle.std.specs.Prelude.{◌≡◌, ◌≤◌, length, All, IfOk};
ghost use Rattle.std.specs.List.{flat_map};
ghost use Rattle.cat_model.specs.Item.{Schema};
ghost use Rattle.cat_model.specs.Limits.{row_limit};
ghost use Rattle.cat_model.specs.View.{live_rows};
ghost use Rattle.cat_views.specs.cat_segment.Index.{AreAllRows};
ghost use Rattle.cat_merge.specs.Fields.{kept_rows, AreMergedColumns};
ghost use Rattle.cat_merge.specs.Making.{AreParts};
ghost use Rattle.cat_merge.specs.Walk.{AreInputs};

use crate::columns::{add_column, add_columns};
use crate::counting::live_rows_in;
use crate::id_runs::IdRuns;
use crate::input::Input;
use crate::row_maps::row_maps;
use cat_items::Field;
use cat_items::file_parts::ColumnParts;
use std::alloc::{AllocError, Global};

/// What is made so far of the columns of the merged segment and of the index of its ids. All of it follows from the inputs as they
/// were at the beginning, so that no step has to wait for rows that aren't passed.
#[derive(Drop)]
pub(crate) struct Parts {
    // Where the rows of each input go.
    pub(crate) maps: Vec<Vec<u32>>,
    // How many rows are kept.
    pub(crate) rows: usize,
    // Those of the first fields, and for the number fields among these all rows in few runs with rising numbers.
    pub(crate) columns: Vec<ColumnParts>,
    pub(crate) orders: Vec<Vec<u32>>,
    pub(crate) ids: IdRuns,
}

impl Parts {
    /// Nothing but where the rows go.
    pub(crate) fn begin(alloc: Global, inputs: &[Input]) -> Result<Parts, AllocError>
        requires inputs { AreInputs inputs.now }
        requires few { length (flat_map live_rows inputs.now) ≤ row_limit }
        ensures ok { IfOk result (λ p. (fields : Schema) → AreParts fields inputs.now p) }
    {
        Ok(Parts {
            maps: row_maps(alloc, inputs)?,
            rows: live_rows_in(inputs),
            columns: Vec::new(alloc),
            orders: Vec::new(alloc),
            ids: IdRuns::none(alloc),
        })
    }

    /// Makes a part of the index of the ids, or the column of one field more, with the order of its rows where it is a number
    /// field, while one is left.
    pub(crate) fn step(
        &mut self,
        alloc: Global,
        fields: &[Field],
        inputs: &[Input],
    ) -> Result<(), AllocError>
        requires inputs { AreInputs inputs.now }
        requires fields { All (λ leaf. leaf.segment.schema ≡ fields.now) inputs.now }
        requires parts { AreParts fields.now inputs.now self.old }
        ensures parts { AreParts fields.now inputs.now self.new }
    {
        if !self.ids.is_one(inputs) {
            return self.ids.step(alloc, inputs, &self.maps);
        }
        if self.columns.len() < fields.len() {
            return add_column(
                alloc,
                fields,
                inputs,
                &self.maps,
                self.rows,
                &mut self.columns,
                &mut self.orders,
            );
        }
        Ok(())
    }

    /// The columns of all fields, all rows in few runs that stand in byte order of their ids, and for the number fields in turn all
    /// rows in few runs with rising numbers. It makes what no step has made.
    pub(crate) fn finish(
        self,
        alloc: Global,
        fields: &[Field],
        inputs: &[Input],
    ) -> Result<(Vec<ColumnParts>, Vec<u32>, Vec<Vec<u32>>), AllocError>
        requires inputs { AreInputs inputs.now }
        requires fields { All (λ leaf. leaf.segment.schema ≡ fields.now) inputs.now }
        requires parts { AreParts fields.now inputs.now self }
        ensures columns { IfOk result (λ p. AreMergedColumns fields.now (kept_rows inputs.now) p.0.items) }
        ensures rows { IfOk result (λ p. AreAllRows (length (kept_rows inputs.now)) p.1.items) }
        ensures orders { IfOk result (λ p. All (λ order. AreAllRows (length (kept_rows inputs.now)) order.items) p.2.items) }
    {
        let Parts {
            maps,
            rows,
            mut columns,
            mut orders,
            ids,
        } = self;
        let by_id = ids.into_rows(alloc, inputs, &maps)?;
        add_columns(
            alloc,
            fields,
            inputs,
            &maps,
            rows,
            &mut columns,
            &mut orders,
        )?;
        Ok((columns, by_id, orders))
    }
}
