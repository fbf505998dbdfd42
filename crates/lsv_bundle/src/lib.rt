//! A bundle: a journal and up to eight data files, of which a crash leaves what was committed before or what was
//! committed last, and nothing between.
#![tactic(auto)]

mod body;
mod bundle;
mod commit;
mod data_file;
mod fault;
mod open;
mod shape;
mod theorems;
mod view;

pub use body::Body;
pub use bundle::Bundle;
pub use fault::BundleFault;
pub use shape::Shape;
pub use theorems::{
    bundles_are_apart, bundles_stay, images_hold_what_is_committed, staging_commits_nothing,
};
pub use view::View;
