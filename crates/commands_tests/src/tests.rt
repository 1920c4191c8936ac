//! Commands over files and a listener of this machine.

// A statement of these rows.
macro_rules! statement_text {
    ($($row:literal),*) => {
        concat!(
            "timestamp,transfer_id,side,kind,amount,",
            "debits_pending,debits_posted,credits_pending,credits_posted\n"
            $(, $row)*
        )
    };
}

mod broken;
mod connected;
mod files;
mod firms;
mod homes;
mod moments;
mod orders;
mod periods;
mod program;
mod scripted;
mod serving;
mod settling;
