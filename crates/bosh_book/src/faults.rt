ghost use Rattle.std.specs.Prelude.{◌≡◌};
ghost use Rattle.bosh_asks.specs.declared.fault.BookFault.TheVariants as book;
ghost use Rattle.bosh_book.specs.Faults.{of_journal};
ghost use Rattle.bosh_manifest_names.specs.declared.fault.GoalFault.TheVariants as goal;

use bosh_asks::BookFault;
use bosh_journal::JournalFault;
use bosh_manifest_names::GoalFault;

/// How the refusal of a journal is told as one of the book's.
pub(crate) fn of_journal(fault: JournalFault) -> BookFault
    ensures { result ≡ of_journal fault }
{
    match fault {
        JournalFault::StoreFault => BookFault::StoreFault,
        JournalFault::Damaged { position } => BookFault::Damaged { position },
        JournalFault::Broken => BookFault::Stopped,
        JournalFault::Memory => BookFault::Memory,
    }
}

/// That there is no cloud config.
pub(crate) fn no_config() -> BookFault
    ensures { result ≡ book.Goal goal.NoConfig }
{
    BookFault::Goal(GoalFault::NoConfig)
}
