//! The workbench: the commands of a script, which make, change and print named arrays, and whole
//! runs of scripts.
#![tactic(auto)]

mod ask;
mod create;
mod engine;
mod files;
mod index_list;
mod line;
mod operands;
mod operate;
mod printing;
mod replies;
mod reply_text;
pub mod runner;
mod session;
mod update;
mod view;
mod write;

pub use array_print::WriteFault;
pub use create::{array_type, bind_new};
pub use engine::{answer, execute};
pub use replies::Origin;
pub use reply_text::ReplyText;
pub use runner::{RunFault, ScriptSource, run};
pub use session::{Session, Summary};
