// What no clause says: that calls succeed, that requests from outside are read as meant, and what comes at faults.
mod bodies;
mod heads;
mod requests;
mod responses;
mod sources;
