//! What is tested, by layer.

mod changed_requests;
mod json;
mod reading;
mod replies;
mod requests;
