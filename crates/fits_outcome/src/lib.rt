// What the public calls single fit and `best_two` answer, as definitions, in specs/, and their laws. No function.
#![tactic(auto)]
