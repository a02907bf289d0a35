ghost use Rattle.std.specs.Prelude.{◌≡◌, ◌<◌, ◌++◌, [], ◌∷◌, false, length, Err, Some, IfErr, IfOk, OnOk};
ghost use Rattle.bosh_keep_sql.specs.Ending.{EndsWhole, EndsWithLog, FailsToCopy, StandsAlone};
ghost use Rattle.bosh_keep_sql.specs.Holding.{IsTied};
ghost use Rattle.bosh_keep_sql.specs.Loads.{DiffersFrom, FailsToLoad, Finds, ListsBodies};
ghost use Rattle.bosh_keep_sql.specs.Rewrites.{RefusesRewrite, Rewrites};
ghost use Rattle.bosh_keep_sql.specs.Rows.{row_of};
ghost use Rattle.bosh_keep_sql.specs.SqlView.{Fails};
ghost use Rattle.bosh_keep_sql.specs.Statements.{insert_text, IsOneCommit, RefusesBody, Runs};
ghost use Rattle.bosh_ports.specs.Faults.{NeverFalls};
ghost use Rattle.bosh_ports.specs.Keeper.{FailsByCount, IsBodyAt, Leaves, TellsBroken, TellsMended};
ghost use Rattle.sqlite.specs.Held.{state};
ghost use Rattle.sqlite.specs.Files.{IsClosed};
ghost use Rattle.sqlite.specs.State.{HasCleanDisk};
ghost use Rattle.sqlite.specs.WalReads.{AreClean};
ghost use Rattle.sqlite.specs.View.{IsClean};
ghost use Rattle.sqlite.specs.FileStore.{view};

use crate::LoadFault;
use crate::fault::fault_of;
use crate::store::{check, found, put, put_all};
use bosh_ports::{Bodies, KeepFault, Keeper};
use sqlite::{Alter, Connection, FileStore, Files};
use sqlite_disk::Disk;
use std::alloc::Global;
use std::marker::Model;

/// A keeper over one table of a database. It holds the bodies of the table in memory too: what it tells is what it has
/// stored, whatever the disk does, and what the disk gives back is held against it.
#[derive(Drop)]
pub struct SqlKeeper<S: Alter + Drop> {
    alloc: Global,
    connection: Connection<S>,
    bodies: Vec<Vec<u8>>,
    faults: u64,
    is_broken: bool,
}

impl<S: Alter + Drop> Model for SqlKeeper<S> {
    ghost use Rattle.bosh_keep_sql.specs.Holding.{IsTied};
    ghost use Rattle.bosh_keep_sql.specs.SqlView.{SqlView, view_code};
    ghost use Rattle.bosh_ports.specs.Contents.{contents};

    ghost Value = { SqlView S };

    ghost coded = { view_code S.code };

    ghost view = { λ keeper. record {
      connection = keeper.connection;
      bodies = contents keeper.bodies.items;
      faults = keeper.faults;
      is_broken = keeper.is_broken;
    } };

    ghost invariant = { λ keeper. IsTied S.Store keeper.connection (contents keeper.bodies.items) };
}

impl<S: Alter + Drop> SqlKeeper<S> {
    /// The keeper over a database that has no table yet, or the keeper's alone. Whatever else it has is refused, and so
    /// are rows that are no bodies or whose positions have a gap; then nothing is written. A refusal gives the
    /// connection back.
    pub fn load(
        alloc: Global,
        connection: Connection<S>,
    ) -> Result<SqlKeeper<S>, (Connection<S>, LoadFault)>
        ensures fresh { IfOk result (λ keeper. keeper ≡ record keeper { faults = 0; is_broken = false }) }
        ensures found { IfOk result (λ keeper. HasCleanDisk (state S.Store keeper.connection) →
            Finds S.Store connection keeper.connection keeper.bodies) }
        ensures tied { IfOk result (λ keeper. IsTied S.Store keeper.connection keeper.bodies) }
        ensures refused { IfErr result (λ refused. HasCleanDisk (state S.Store refused.0) →
            FailsToLoad S.Store connection refused.0 refused.1) }
    {
        let mut connection = connection;
        if !connection.is_autocommit() {
            return Err((connection, LoadFault::Failed));
        }
        match found(alloc, &mut connection) {
            Ok(bodies) => Ok(SqlKeeper {
                alloc,
                connection,
                bodies,
                faults: 0,
                is_broken: false,
            }),
            Err(fault) => Err((connection, fault)),
        }
    }

    /// Counts a failure, which breaks the keeper.
    fn fail(&mut self, fault: KeepFault) -> KeepFault
        ensures fault { result ≡ fault }
        ensures fails { Fails fault self.old self.new }
        ensures tied { IsTied S.Store self.new.connection self.new.bodies }
        ensures count { NeverFalls self.old.faults self.new.faults }
    {
        match fault {
            KeepFault::Failed => {
                self.faults = self.faults.saturating_add(1);
                self.is_broken = true;
            }
            KeepFault::Broken | KeepFault::Memory => {}
        }
        fault
    }
}

impl<D: Disk + Drop> SqlKeeper<FileStore<D>> {
    /// Ends it: what the log has is copied into the database file, which then has all of it alone. Where that cannot be
    /// done nothing is lost: the log stays, and the next load finds the same.
    pub fn close_files(self) -> Result<Files<D>, (FileStore<D>, KeepFault)>
        ensures copied { IfOk result (λ files. AreClean D.Disk files.log files.db →
            StandsAlone self.bodies self.connection files) }
        ensures kept { IfErr result (λ left. IsClosed self.connection left.0) }
        ensures cause { IfErr result (λ left. IsClean (view left.0) →
            FailsToCopy self.connection left.0 left.1) }
    {
        let SqlKeeper {
            alloc: _,
            connection,
            bodies: _,
            faults: _,
            is_broken: _,
        } = self;
        match connection.close_files() {
            Ok(files) => Ok(files),
            Err((error, store)) => Err((store, fault_of(error))),
        }
    }

    /// The same, for a caller that wants nothing of the files.
    pub fn close(self) -> Result<(), KeepFault>
        ensures copied { OnOk result (EndsWhole self.bodies self.connection) }
        ensures failed { IfErr result (EndsWithLog self.connection) }
    {
        match self.close_files() {
            Ok(_files) => Ok(()),
            Err((store, fault)) => {
                drop(store.close());
                Err(fault)
            }
        }
    }
}

impl<S: Alter + Drop> Keeper for SqlKeeper<S> {
    ghost bodies = { λ keeper. Some keeper.bodies };

    ghost faults = { λ keeper. keeper.faults };

    ghost is_broken = { λ keeper. keeper.is_broken };

    fn faults(&self) -> u64 {
        self.faults
    }

    fn broken(&self) -> bool {
        self.is_broken
    }

    fn len(&self) -> u64 {
        self.bodies.len() as u64
    }

    fn read(&mut self, alloc: Global, k: u64) -> Result<Vec<u8>, KeepFault>
        requires { k < length self.old.bodies }
        ensures same { self.new ≡ self.old }
        ensures tied { IsTied S.Store self.new.connection self.new.bodies }
        ensures body { IsBodyAt result self.old.bodies k }
        ensures list { Some self.new.bodies ≡ Some self.old.bodies }
        ensures broken { TellsBroken result self.old.is_broken self.new.is_broken }
        ensures count { NeverFalls self.old.faults self.new.faults }
        ensures failed { FailsByCount result self.old.faults self.new.faults }
    {
        if self.is_broken {
            return Err(KeepFault::Broken);
        }
        match self.bodies.get(k as usize) {
            Some(body) => Ok(body.to_vec(alloc)?),
            None => unreachable!(),
        }
    }

    fn append(&mut self, body: &[u8]) -> Result<(), KeepFault>
        ensures stored { HasCleanDisk (state S.Store self.new.connection) → OnOk result
            (Runs insert_text (row_of (length self.old.bodies) body.now)
            (state S.Store self.old.connection) (state S.Store self.new.connection)) }
        ensures refused { HasCleanDisk (state S.Store self.new.connection) → result ≡ Err KeepFault.Failed →
            RefusesBody (length self.old.bodies) body.now
            (state S.Store self.old.connection) (state S.Store self.new.connection) KeepFault.Failed }
        ensures tied { IsTied S.Store self.new.connection self.new.bodies }
        ensures list { Leaves result self.old.bodies (self.old.bodies ++ body.now ∷ []) (Some self.new.bodies) }
        ensures broken { TellsBroken result self.old.is_broken self.new.is_broken }
        ensures count { NeverFalls self.old.faults self.new.faults }
        ensures failed { FailsByCount result self.old.faults self.new.faults }
    {
        if self.is_broken {
            return Err(KeepFault::Broken);
        }
        match put(self.alloc, &mut self.connection, &mut self.bodies, body) {
            Ok(()) => Ok(()),
            Err(fault) => Err(self.fail(fault)),
        }
    }

    fn replace(&mut self, list: &Bodies) -> Result<(), KeepFault>
        ensures rewritten { HasCleanDisk (state S.Store self.new.connection) → OnOk result
            (Rewrites S.Store list.now self.old.connection self.new.connection) }
        ensures refused { HasCleanDisk (state S.Store self.new.connection) → result ≡ Err KeepFault.Failed →
            RefusesRewrite S.Store list.now self.old.connection self.new.connection KeepFault.Failed }
        ensures tied { IsTied S.Store self.new.connection self.new.bodies }
        ensures whole { IsOneCommit (state S.Store self.old.connection) (state S.Store self.new.connection) }
        ensures list { Leaves result self.old.bodies list.now (Some self.new.bodies) }
        ensures broken { TellsBroken result self.old.is_broken self.new.is_broken }
        ensures count { NeverFalls self.old.faults self.new.faults }
        ensures failed { FailsByCount result self.old.faults self.new.faults }
    {
        if self.is_broken {
            return Err(KeepFault::Broken);
        }
        match put_all(self.alloc, &mut self.connection, &mut self.bodies, list) {
            Ok(()) => Ok(()),
            Err(fault) => Err(self.fail(fault)),
        }
    }

    fn reload(&mut self) -> Result<(), KeepFault>
        ensures read { HasCleanDisk (state S.Store self.new.connection) → OnOk result
            (ListsBodies S.Store self.old.connection self.new.connection self.new.bodies) }
        ensures differs { HasCleanDisk (state S.Store self.new.connection) → result ≡ Err KeepFault.Failed →
            DiffersFrom S.Store self.old.connection self.new.connection self.old.bodies }
        ensures tied { IsTied S.Store self.new.connection self.new.bodies }
        ensures list { Some self.new.bodies ≡ Some self.old.bodies }
        ensures mended { TellsMended result self.old.is_broken self.new.is_broken }
        ensures count { NeverFalls self.old.faults self.new.faults }
        ensures failed { FailsByCount result self.old.faults self.new.faults }
    {
        match check(self.alloc, &mut self.connection, &self.bodies) {
            Ok(()) => {
                self.is_broken = false;
                Ok(())
            }
            Err(fault) => Err(self.fail(fault)),
        }
    }
}
