//! The trusted edge of storage: the real disks, one that changes the store and two that change less. They tell no content, and count their faults.
#![tactic(auto)]

mod bounded;
mod call;
mod cut_notice;
mod disk;
mod doubt;
mod drawn;
mod fault;
mod folders;
mod foreign;
mod handle;
mod known;
mod limit;
mod lock;
mod log_path;
mod look;
mod made;
mod misplaced;
mod naming;
mod notices;
mod opened;
mod owner;
mod path;
mod read_only;
mod reader;
mod refusal;
mod relay_disk;
mod reports;
mod shared;
mod span;
mod store;
mod tail;
mod unsynced;

pub use disk::FileDisk;
pub use drawn::{FarNumbers, NumbersLook, Uncovered, Wrong, WrongNumbers, numbers_in};
pub use limit::{clients_within, most_descriptors};
pub use look::{Lack, NoStore, folder_of_log, has_numbers, is_denied, lack_of, no_store_in};
pub use made::{InodeTable, Made, NewFile};
pub use naming::{FolderCalls, FolderSync, Placed, SharedFolders};
pub use notices::Notices;
pub use read_only::ReadOnlyDisk;
pub use relay_disk::RelayDisk;
pub use reports::Reports;
pub use unsynced::{SyncedFile, Unsynced};
