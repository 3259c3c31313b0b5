mod inputs;
mod plans;
mod sessions;
mod waiting;
