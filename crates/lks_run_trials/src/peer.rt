//! A peer that is restored, and its work as jobs.

mod jobs;
mod restored;
mod scene;
