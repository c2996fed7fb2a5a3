// Each call once, on its happy path.
mod checking;
mod lines;
mod queries;
mod reports;
mod tasks;
