//! The decisions as rules.
use crate::decisions::decide;
use review_file::ProjectFile;
use review_file_lines::FileMemo;
use review_machine_deliveries::Rules;
use review_machine_needs::{next_need, read_file_for};
use review_machine_rows::{Delta, Matter, Need, Rows, Step};
use review_machine_submits::show;
use review_words::{AccountNo, Command, Epoch, NotTaken, Query, Reply};
use std::alloc::{AllocError, Global};

/// The desk's own rules, with the project files that were read for earlier deliveries.
#[derive(Drop)]
pub struct DeskRules {
    memo: FileMemo,
}

impl DeskRules {
    /// The rules, with no file read yet.
    pub fn new(alloc: Global) -> DeskRules {
        DeskRules {
            memo: FileMemo::new(alloc),
        }
    }
}

impl Rules for DeskRules {
    fn next_need(
        &mut self,
        alloc: Global,
        effective: Option<&ProjectFile>,
        rows: &Rows,
        caller: AccountNo,
        matter: Matter<'_>,
        come: &mut Step,
    ) -> Result<Option<Need>, AllocError> {
        next_need(alloc, &mut self.memo, effective, rows, caller, matter, come)
    }

    fn read(
        &mut self,
        alloc: Global,
        rows: &Rows,
        matter: Matter<'_>,
    ) -> Result<Option<ProjectFile>, NotTaken> {
        read_file_for(alloc, &mut self.memo, rows, matter)
    }

    fn decide(
        &mut self,
        alloc: Global,
        effective: Option<&ProjectFile>,
        rows: &Rows,
        caller: AccountNo,
        epoch: Epoch,
        command: &Command,
    ) -> Result<(Delta, Reply), NotTaken> {
        decide(
            alloc,
            &mut self.memo,
            effective,
            rows,
            caller,
            epoch,
            command,
        )
    }

    fn show(
        &mut self,
        alloc: Global,
        effective: Option<&ProjectFile>,
        rows: &Rows,
        caller: AccountNo,
        query: &Query,
    ) -> Result<Reply, NotTaken> {
        show(alloc, effective, rows, caller, query)
    }
}
