//! Steps that ask an office for its mail.

use crate::bytes::text_in;
use crate::failures::whole_writer;
use office_core_queries::{AskFault, export, write_list};
use office_http::Office;
use office_mail::ToWrite;
use office_store::Keeper;
use std::alloc::{AllocError, Global};

/// Adds a line for each kept message.
pub fn list_in<K: Keeper>(
    alloc: Global,
    office: &mut Office<K>,
    came: &mut String,
) -> Result<(), AllocError> {
    let mut writer = whole_writer(alloc);
    let listed = write_list(office, &mut ToWrite::new(&mut writer));
    put_asked(&writer.taken, listed, came)
}

/// Adds the bag of all kept mail.
pub fn export_in<K: Keeper>(
    alloc: Global,
    office: &mut Office<K>,
    came: &mut String,
) -> Result<(), AllocError> {
    let mut writer = whole_writer(alloc);
    let exported = export(office, &mut ToWrite::new(&mut writer));
    put_asked(&writer.taken, exported, came)
}

/// Adds what was written, and if something failed, why no more was.
fn put_asked(
    taken: &[u8],
    asked: Result<(), AskFault>,
    came: &mut String,
) -> Result<(), AllocError> {
    match asked {
        Ok(()) => came.push_str(text_in(taken)),
        Err(fault) => write!(came, "{}failed: {fault:?}\n", text_in(taken)),
    }
}
