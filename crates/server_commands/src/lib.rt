//! What the commands to the server itself reply, from what the server knows of itself.
#![tactic(auto)]

mod command_reply;
mod config;
mod device_reason;
mod docs;
mod facts;
mod far;
mod greeting;
mod info_reply;
mod page;
mod reply_parts;
mod sizes;
mod slow_log;
mod statistics;

pub use command_reply::{command_count, command_list};
pub use config::config_get;
pub use device_reason::{DEVICE_REASONS, DeviceReason};
pub use docs::command_docs;
pub use facts::{Facts, Options};
pub use greeting::{fault, hello};
pub use info_reply::info;
pub use page::Section;
pub use slow_log::{SLOW_COMMANDS, SlowCommand, kept_arguments, slow_log_get, slow_log_len};
pub use statistics::{
    STATISTICS, Statistic, StatisticKind, StatisticRow, Statistics, statistic_rows,
};
