// The calls for the firmware's C host: each is `extern "C"`, returns the refusal number, and carries the contract of the call
// below it. What a call below answers goes to the returned number and to out values, which are set at every return. Numbers, out values and
// lists one by one, and no `Result` and `Strip`: C has no other.
#![tactic(auto)]

mod handed;
mod jobs;
mod letters;
mod passes;
mod places;
mod texts;
mod tracks;
