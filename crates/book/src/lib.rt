// The book: what an ordered map would do. Definitions alone (specs/), which the list's theorems and the row's contracts cite.
#![tactic(auto)]
