// What the civil form means: stamps of a date and a time of day, read as labels. The form's code stands in the crate above.
#![tactic(auto)]
