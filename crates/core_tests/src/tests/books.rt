//! Tables of one tenant, batches over a book, and the reads of the model's worked examples.

mod batches;
mod firms;
mod queries;
mod reads;
mod rounds;
mod statements;
mod tables;
