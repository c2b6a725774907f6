// No code: laws that are about nothing of this repository, each once (proofs/). Tests: what is true or false. Lists: what
// stands at a place, and stores. Numbers: powers and quotients. What the toolchain's libraries have is not said again here.
#![tactic(auto)]
