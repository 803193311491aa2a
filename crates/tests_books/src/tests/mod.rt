mod beside;
mod hashkeys;
mod jobs;
mod memory;
mod passes;
mod raced;
mod replayed;
mod rings;
