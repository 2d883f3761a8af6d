// What a crew can have checked of a year's report.
#![tactic(auto)]
